// Definitions and theorems, in specs/: what each byte string is judged as once its order and its tables count, causes 8 to 11. No code runs here.
#![tactic(auto)]
