// Theorems alone, in specs/: how large tables can be. No code runs here.
#![tactic(auto)]
