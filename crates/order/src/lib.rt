// Definitions and theorems, in specs/: the regular order of the SROIQ papers, and when a list of rules has one. No code runs here.
#![tactic(auto)]
