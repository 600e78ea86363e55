// Definitions, in specs/: a question put to tables, causes 12 to 15, and its answer. No code runs here.
#![tactic(auto)]
