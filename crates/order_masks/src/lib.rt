// Laws alone, in specs/: the order in masks. No code runs here.
#![tactic(auto)]
