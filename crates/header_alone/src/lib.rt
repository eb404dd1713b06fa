// A theorem about the forwarding step, in proofs/: it depends on the header alone, and keeps the bytes that follow it. There is no code.
#![tactic(auto)]
