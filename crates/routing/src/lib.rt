// The standard-path forwarding step: its two halves and the whole.
#![tactic(auto)]

pub mod step;
