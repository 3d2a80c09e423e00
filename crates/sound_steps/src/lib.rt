// Soundness kept by the steps of one class of one heap: refill, flush and what they are made of. Theorems only, no code.
#![tactic(auto)]
