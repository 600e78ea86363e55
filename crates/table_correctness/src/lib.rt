// The theorem, in specs/: on the tables of an ordered book a path exists exactly where the chain is derived. No code runs here.
#![tactic(auto)]
