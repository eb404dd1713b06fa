// The check of a path's segments: does each hop of a segment fit its station, from a given record of the itinerary on?
#![tactic(auto)]

pub mod hops;
pub mod journey;
pub mod segments;
