// Lists of calls recorded from the original, each held against the definitions by computation. The files of proofs/ are written by oracle/record.
#![tactic(auto)]
