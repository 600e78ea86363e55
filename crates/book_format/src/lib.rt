// Definitions and their laws, in specs/: the byte format of a book, and what each byte string reads as. No code runs here.
#![tactic(auto)]
