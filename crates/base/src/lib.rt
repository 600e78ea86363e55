// Definitions and laws alone, in specs/: truth values, numbers, lists and results. No code runs here.
#![tactic(auto)]
