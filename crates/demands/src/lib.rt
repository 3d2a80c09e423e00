// The three demands of docs/PROMISES.md, stated over the definitions and proved. Theorems only, no code.
#![tactic(auto)]
