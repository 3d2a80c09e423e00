// What follows from soundness: fresh tables have it, and it gives what the code asks. Theorems only, no code.
#![tactic(auto)]
