// The steps of one span keep a filled table filled, and what each does to the state of every block. Theorems only, no code.
#![tactic(auto)]
