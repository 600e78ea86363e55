// Laws alone, in specs/: how tables are laid out piece by piece. No code runs here.
#![tactic(auto)]
