// The inverse in the field of the S-box is the inverse, and the only one: proofs/Inverse.antt. There is no code.
#![tactic(auto)]
