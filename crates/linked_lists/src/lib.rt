// Lists that run through one array, by key: definitions and laws, no code.
#![tactic(auto)]
