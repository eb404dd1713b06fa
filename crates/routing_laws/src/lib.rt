// Theorems about the forwarding step, in proofs/. There is no code.
#![tactic(auto)]
