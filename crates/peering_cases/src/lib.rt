// Peering paths in both editions, computed from the definitions: proofs/ has the rows, there is no code to them.
#![tactic(auto)]
