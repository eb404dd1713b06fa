// Questions in order: definitions in specs/, their laws in proofs/. There is no code.
#![tactic(auto)]
