// What the program writes for a book and its questions, in specs/: definitions and laws. No code runs here.
#![tactic(auto)]
