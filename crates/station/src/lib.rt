// A station of an itinerary: which record it is, and what its table holds.
#![tactic(auto)]

ghost use Rattle.std.specs.Prelude.{◌≡◌, get_or};
ghost use Rattle.interface_table.specs.Table.{table_sound, state_of};
ghost use Rattle.records.specs.Layout.{layout_of};
ghost use Rattle.records.specs.Records.{station_records};
ghost use Rattle.station.specs.Station.{station_at};
ghost use Rattle.station.specs.Inner.{station_within};

use interface_table::MAX_ENTRIES;
use records::Itinerary;

// One record more than a sound table has.
pub const TABLE_LIMIT: usize = 257;

// The record of the station with this place in the chain, counted from 0; 0 where there is none, which is record 0: the callers read on,
// and fields are read on all inputs.
pub fn station_record(itinerary: Itinerary<'_>, place: u8) -> u32
    ensures { result ≡ get_or (station_records (layout_of itinerary.entry.form) itinerary.entry.bytes.now) place 0 }
{
    let place = usize::from(place);
    itinerary.station_records().nth(place).unwrap_or(0)
}

// A station: the plan that it stands in, and the index of its record there.
#[derive(Clone, Copy)]
pub struct Station<'a> {
    pub itinerary: Itinerary<'a>,
    pub index: u32,
}

impl Station<'_> {
    #[tactic(auto, unfolding(crate::specs::Station::station_with))]
    pub fn arrival(self) -> u16
        ensures { let s = self.entry in result ≡ (station_at (layout_of s.itinerary.form) s.itinerary.bytes.now s.index).arrival }
    {
        self.itinerary.arrival(self.index)
    }

    #[tactic(auto, unfolding(crate::specs::Station::station_with))]
    pub fn key(self) -> [u8; 16]
        ensures { let s = self.entry in result ≡ (station_at (layout_of s.itinerary.form) s.itinerary.bytes.now s.index).key }
    {
        self.itinerary.key(self.index)
    }

    // What its table has for an interface number.
    pub fn lookup(self, number: u16) -> Option<u8>
        ensures { let s = self.entry in let station = station_at (layout_of s.itinerary.form) s.itinerary.bytes.now s.index in
            result ≡ state_of station.ids station.states number }
    {
        let itinerary = self.itinerary;
        let index = itinerary
            .table_records(self.index)
            .find(|index| itinerary.interface_number(*index) == number)?;
        Some(itinerary.interface_state(index))
    }

    #[tactic(auto, using(crate::proofs::Walks::entered_on))]
    pub fn is_table_sound(self) -> bool
        ensures { let s = self.entry in let station = station_within (layout_of s.itinerary.form) s.itinerary.bytes.now 257 s.index in
            result ≡ table_sound station.ids station.states }
    {
        // One walk: a record is asked with the one before it and with how many there were, so a `try_fold` has the same body. By `nth`,
        // `is_sorted_by` and `all`, which go along the chain three times, a table of 256 took 1.8 times as long.
        let itinerary = self.itinerary;
        let mut lowest: u32 = 0;
        for (entries, index) in itinerary
            .table_records_within(self.index, TABLE_LIMIT)
            .enumerate()
        {
            let number = u32::from(itinerary.interface_number(index));
            if entries == MAX_ENTRIES || number < lowest {
                return false;
            }
            if 8 <= itinerary.interface_state(index) {
                return false;
            }
            lowest = number + 1;
        }
        true
    }
}
