// The theorem, in specs/: document 01's starred examples hold, by evaluation of the definitions over one table. No code runs here.
#![tactic(auto)]
