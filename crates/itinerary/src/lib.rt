// Whether an itinerary fits a path: question 23 but for the clock readings, on all inputs.
#![tactic(auto)]

ghost use Rattle.std.specs.Prelude.{◌≡◌, length};
ghost use Rattle.records.specs.Layout.{layout_of};
ghost use Rattle.records.specs.Inner.{station_records_within};
ghost use Rattle.itinerary.specs.Itinerary.{tables_sound, arrivals_fit, itinerary_fits};
ghost use Rattle.itinerary.specs.Inner.{stations_within};

use records::Itinerary;
use soundness::Limits;
use station::{Station, TABLE_LIMIT};

// Here and below: a walk uses its chain up, so each question makes its own, from plan and limit.
fn are_tables_sound(itinerary: Itinerary<'_>, station_limit: usize) -> bool
    ensures { result ≡ tables_sound (stations_within (layout_of itinerary.entry.form) itinerary.entry.bytes.now station_limit 257) }
{
    itinerary
        .station_records_within(station_limit)
        .all(|index| Station { itinerary, index }.is_table_sound())
}

fn station_count(itinerary: Itinerary<'_>, station_limit: usize) -> usize
    ensures { result ≡ length (station_records_within (layout_of itinerary.entry.form) itinerary.entry.bytes.now station_limit) }
{
    itinerary.station_records_within(station_limit).count()
}

fn arrivals_fit(itinerary: Itinerary<'_>, station_limit: usize) -> bool
    ensures { result ≡ arrivals_fit (stations_within (layout_of itinerary.entry.form) itinerary.entry.bytes.now station_limit 257) }
{
    let mut stations = itinerary.station_records_within(station_limit);
    let Some(first) = stations.next() else {
        return true;
    };
    itinerary.arrival(first) == 0 && stations.all(|station| itinerary.arrival(station) != 0)
}

// Question 23 but for the clock readings: sound, tables too, the arrivals, and as many stations as wanted.
#[tactic(auto, using(crate::proofs::Bound::fits_asked))]
pub fn fits(itinerary: Itinerary<'_>, wanted: u8) -> bool
    ensures { result ≡ itinerary_fits (layout_of itinerary.entry.form) itinerary.entry.bytes.now wanted }
{
    let wanted = usize::from(wanted);
    let limit = wanted + 1;
    let limits = Limits {
        stations: limit,
        table: TABLE_LIMIT,
    };
    (soundness::is_sound_within(itinerary, limits)
        & are_tables_sound(itinerary, limit)
        & arrivals_fit(itinerary, limit))
        & (station_count(itinerary, limit) == wanted)
}
