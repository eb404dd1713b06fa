// The journey check: would a path arrive over the stations of an itinerary, whatever their clocks read from earliest to latest?
#![tactic(auto)]

pub mod verdict;
