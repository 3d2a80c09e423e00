// The soundness of a lent table.
#![tactic(auto)]
