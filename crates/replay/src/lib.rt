// Recorded answers and tables of the original, held against the definitions by computation. No code.
#![tactic(auto)]
