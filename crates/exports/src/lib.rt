// The calls for programs that are not Rattle: thin functions over slices and numbers, with an answer that is a struct of numbers.
// exports_c is the static library of them.
#![tactic(auto)]

pub mod calls;
pub mod editions;
