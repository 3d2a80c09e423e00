// What the steps of a magazine, and the steps of a list, do to a filled table and to the state of every block. Theorems only, no code.
#![tactic(auto)]
