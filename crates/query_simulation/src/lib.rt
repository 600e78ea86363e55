// Definitions and theorems, in specs/: stamped sets of states, an index of transitions, and the paths that they stand for. No code runs here.
#![tactic(auto)]
