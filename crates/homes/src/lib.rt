// Soundness of the lists by the home of each span, and the steps that keep it. Theorems only, no code.
#![tactic(auto)]
