// Definitions alone, in specs/: roles, chains, rules and derivation. No code runs here.
#![tactic(auto)]
