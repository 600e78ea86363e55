// Theorems, in specs/: the numbered tables accept exactly the chains that the two-state machines read. No code runs here.
#![tactic(auto)]
