// The journey over the stations of an itinerary, the definition of the journey check, and the theorem that it passes a path exactly if
// the path travels: definitions in specs/, the theorem in proofs/. There is no code; the check itself is the crate journey_check.
#![tactic(auto)]
