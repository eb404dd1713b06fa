// The static library for C: each function of `exports` under its own name, with its own clauses. A library for Rattle programs, as
// `exports` is, is none for C.
#![tactic(auto)]

pub mod calls;
pub mod editions;
