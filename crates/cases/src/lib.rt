// 01's cases with a letter, and more: proofs/Table.antt has them, there is no code to them.
#![tactic(auto)]
