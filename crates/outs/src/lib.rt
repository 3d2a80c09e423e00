// Which blocks each step of a class heap leaves out. Theorems only, no code.
#![tactic(auto)]
