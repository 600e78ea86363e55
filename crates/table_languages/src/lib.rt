// Theorems, in specs/: a role derives exactly the chains that its two-state machine reads. No code runs here.
#![tactic(auto)]
