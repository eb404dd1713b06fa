// The whole step of one station of a plan: its table and key are read out of the plan's records.
#![tactic(auto)]

ghost use Rattle.std.specs.Prelude.{MatchOption, ◌≡◌, ◌<◌, ◌≤◌, length, take};
ghost use Rattle.records.specs.Layout.{layout_of};
ghost use Rattle.station.specs.Station.{station_at};
ghost use Rattle.journey.specs.Journey.{step_at};

use answers::{StandardRoutingError, StepAnswer};
use arrayvec::ArrayVec;
use edition::Edition;
use interface_table::{InterfaceTable, MAX_ENTRIES};
use routing::step::handle_standard_path;
use station::Station;

// A station's table, copied out of its records. Its room is fixed, since there is no heap.
#[derive(Drop)]
struct CopiedTable {
    ids: ArrayVec<u16, MAX_ENTRIES>,
    states: ArrayVec<u8, MAX_ENTRIES>,
}

impl CopiedTable {
    // None of more entries than a sound table has.
    #[tactic(auto, unfolding(station::specs::Station::station_with))]
    fn new(station: Station<'_>) -> Option<CopiedTable>
        ensures { let s = station.entry in let there = station_at (layout_of s.itinerary.form) s.itinerary.bytes.now s.index in
            MatchOption result (256 < length there.ids)
            (λ table. (table.ids.items ≡ there.ids) × (table.states.items ≡ there.states)) }
    {
        let itinerary = station.itinerary;
        let mut ids = ArrayVec::new();
        let mut states = ArrayVec::new();
        for record in itinerary.table_records(station.index) {
            ids.try_push(itinerary.interface_number(record)).ok()?;
            states.try_push(itinerary.interface_state(record)).ok()?;
        }
        Some(CopiedTable { ids, states })
    }

    fn interfaces(&self) -> InterfaceTable<'_>
        ensures ids { result.ids.now ≡ self.now.ids.items }
        ensures states { result.states.now ≡ self.now.states.items }
    {
        InterfaceTable {
            ids: &self.ids,
            states: &self.states,
        }
    }
}

// The whole step of this station, on a lent path. An unsound table is answered by 1.
#[tactic(auto, unfolding(journey::specs::Journey::step_at))]
pub fn step_at(edition: Edition, station: Station<'_>, path: &mut [u8], time: u32) -> StepAnswer
    ensures value { let s = station.entry in result ≡
        (step_at edition (station_at (layout_of s.itinerary.form) s.itinerary.bytes.now s.index) time path.old).answer }
    ensures path_after { let s = station.entry in path.new ≡
        (step_at edition (station_at (layout_of s.itinerary.form) s.itinerary.bytes.now s.index) time path.old).bytes }
{
    let Some(table) = CopiedTable::new(station) else {
        return Err(StandardRoutingError::UnsoundTable);
    };
    let arrival = station.arrival();
    let key = station.key();
    handle_standard_path(
        edition,
        table.interfaces(),
        path,
        arrival,
        time,
        &key,
        false,
    )
}
