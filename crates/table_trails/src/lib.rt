// Definitions and theorems alone, in specs/: tables read along trails over a chain, and what binds. No code runs here.
#![tactic(auto)]
