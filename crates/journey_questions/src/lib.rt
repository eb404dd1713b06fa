// What the journey check asks before the conditions of a pass, and the lengths and first stations that these rest on.
#![tactic(auto)]

pub mod answer;
pub mod asked;
pub mod segments;
