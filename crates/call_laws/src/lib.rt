// What the calls promise, over their definitions: soundness kept, refusals, exhaustion, the blocks that are out, runs and batches. Theorems only, no code.
#![tactic(auto)]
