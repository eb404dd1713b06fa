// The header of SCION's standard path.
#![tactic(auto)]

pub mod view;
