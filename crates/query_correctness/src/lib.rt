// The theorems, in specs/: a question put to the tables of an accepted book is never refused and is answered by derivation; put to them by
// trails, it is answered by what binds. No code runs here.
#![tactic(auto)]
