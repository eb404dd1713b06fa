// Whether an itinerary is sound. Chains are followed only as far as a limit goes, so that the work is bounded whatever the bytes.
//
// Questions are joined by `&`: a plan is nearly always sound, and a walk stops at its first bad record anyway.
#![tactic(auto)]

ghost use Rattle.std.specs.Prelude.{◌≡◌, true};
ghost use Rattle.records.specs.Layout.{layout_of};
ghost use Rattle.records.specs.Records.{every};
ghost use Rattle.records.specs.Inner.{station_records_within, table_records_within};
ghost use Rattle.record_rules.specs.Rules.{next_sound};
ghost use Rattle.soundness.specs.Soundness.{interface_sound, station_sound};
ghost use Rattle.soundness.specs.Inner.{sound_within};

use records::Itinerary;

// How far chains are followed: for so many stations, and for so many records of each station's table.
#[derive(Clone, Copy)]
pub struct Limits {
    pub stations: usize,
    pub table: usize,
}

// ---- the records of a table

// Both chains go up, the stations' as required and the table's as asked, so one pass along both finds a record that is in both.
fn are_interfaces_sound(itinerary: Itinerary<'_>, limits: Limits, station: u32) -> bool
    requires { every (next_sound (layout_of itinerary.form) itinerary.bytes.now)
        (station_records_within (layout_of itinerary.form) itinerary.bytes.now limits.stations) ≡ true }
    ensures { result ≡ every (interface_sound (layout_of itinerary.entry.form) itinerary.entry.bytes.now
        (station_records_within (layout_of itinerary.entry.form) itinerary.entry.bytes.now limits.stations))
        (table_records_within (layout_of itinerary.entry.form) itinerary.entry.bytes.now limits.table station) }
{
    let mut stations = itinerary.station_records_within(limits.stations);
    let mut reached = stations.next();
    for index in itinerary.table_records_within(station, limits.table) {
        if !(record_rules::is_next_sound(itinerary, index)
            & record_rules::are_interface_zeros_sound(itinerary, index))
        {
            return false;
        }
        if reached.is_some_and(|reached| reached < index) {
            reached = stations.find(|station| *station >= index);
        }
        if reached == Some(index) {
            return false;
        }
    }
    true
}

// ---- a station

#[tactic(auto, unfolding(crate::specs::Soundness::station_sound))]
fn is_station_sound(itinerary: Itinerary<'_>, limits: Limits, index: u32) -> bool
    requires { every (next_sound (layout_of itinerary.form) itinerary.bytes.now)
        (station_records_within (layout_of itinerary.form) itinerary.bytes.now limits.stations) ≡ true }
    ensures { result ≡ station_sound (layout_of itinerary.entry.form) itinerary.entry.bytes.now
        (station_records_within (layout_of itinerary.entry.form) itinerary.entry.bytes.now limits.stations)
        (table_records_within (layout_of itinerary.entry.form) itinerary.entry.bytes.now limits.table) index }
{
    record_rules::is_next_sound(itinerary, index)
        & record_rules::are_station_zeros_sound(itinerary, index)
        & record_rules::is_index_sound(itinerary, itinerary.first_interface(index))
        & are_interfaces_sound(itinerary, limits, index)
}

fn are_station_nexts_sound(itinerary: Itinerary<'_>, station_limit: usize) -> bool
    ensures { result ≡ every (next_sound (layout_of itinerary.entry.form) itinerary.entry.bytes.now)
        (station_records_within (layout_of itinerary.entry.form) itinerary.entry.bytes.now station_limit) }
{
    itinerary
        .station_records_within(station_limit)
        .all(|station| record_rules::is_next_sound(itinerary, station))
}

fn are_stations_sound(itinerary: Itinerary<'_>, limits: Limits) -> bool
    ensures { result ≡ every (station_sound (layout_of itinerary.entry.form) itinerary.entry.bytes.now
        (station_records_within (layout_of itinerary.entry.form) itinerary.entry.bytes.now limits.stations)
        (table_records_within (layout_of itinerary.entry.form) itinerary.entry.bytes.now limits.table))
        (station_records_within (layout_of itinerary.entry.form) itinerary.entry.bytes.now limits.stations) }
{
    are_station_nexts_sound(itinerary, limits.stations)
        && itinerary
            .station_records_within(limits.stations)
            .all(|station| is_station_sound(itinerary, limits, station))
}

// ---- the whole

#[tactic(auto, unfolding(crate::specs::Soundness::sound_of))]
pub fn is_sound_within(itinerary: Itinerary<'_>, limits: Limits) -> bool
    ensures { result ≡ sound_within (layout_of itinerary.entry.form) itinerary.entry.bytes.now limits.stations limits.table }
{
    record_rules::is_size_sound(itinerary)
        & record_rules::is_head_sound(itinerary)
        & are_stations_sound(itinerary, limits)
}
