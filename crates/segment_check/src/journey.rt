// What the journey check is asked: would the path arrive over the itinerary's stations, whatever their clocks read from earliest to latest?
use edition::Edition;
use records::Itinerary;

#[derive(Clone, Copy)]
pub struct Journey<'a> {
    pub edition: Edition,
    pub path: &'a [u8],
    pub itinerary: Itinerary<'a>,
    pub earliest: u32,
    pub latest: u32,
}
