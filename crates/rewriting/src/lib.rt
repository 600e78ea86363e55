// Theorems alone, in specs/: replacements between chains. No code runs here.
#![tactic(auto)]
