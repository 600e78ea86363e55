// Definitions and theorems, in specs/: the tables of a book as lists, and the chains that they accept. No code runs here.
#![tactic(auto)]
