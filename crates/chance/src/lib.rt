// Demand 3: chance picks the place of a block, and never the answer. Definitions and theorems only, no code.
#![tactic(auto)]
