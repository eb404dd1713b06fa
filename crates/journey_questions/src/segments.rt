// The lengths of a path, and the stations that its segments start at.
ghost use Rattle.std.specs.Prelude.{◌≡◌};
ghost use Rattle.standard_path.specs.Meta.{seg0_len, seg1_len, seg2_len};
ghost use Rattle.records.specs.Layout.{layout_of};
ghost use Rattle.journey_questions.specs.Lengths.{long_enough, lengths_fit, lengths_pass, shared};
ghost use Rattle.journey_questions.specs.Inner.{first_record, first_records};

use edition::Edition;
use segment_check::hops::PathSegment;
use segment_check::journey::Journey;
use standard_path::view;
use station::station_record;

// ---- the lengths

fn is_long_enough(length: u8) -> bool
    ensures { result ≡ long_enough length }
{
    (length == 0) | (2 <= length)
}

// By name: what is asked of each length is another thing.
#[tactic(auto, unfolding(crate::specs::Lengths::lengths_fit))]
fn lengths_fit(path: &[u8]) -> bool
    ensures { result ≡ lengths_fit (seg0_len path.now) (seg1_len path.now) (seg2_len path.now) }
{
    let seg0 = view::seg0_len(path);
    let seg1 = view::seg1_len(path);
    let seg2 = view::seg2_len(path);
    (seg0 != 0)
        & ((seg1 != 0) | (seg2 == 0))
        & is_long_enough(seg0)
        & is_long_enough(seg1)
        & is_long_enough(seg2)
}

pub fn lengths_pass(edition: Edition, path: &[u8]) -> bool
    ensures { result ≡ lengths_pass edition path.now }
{
    edition::is_peering_path(edition, path) | lengths_fit(path)
}

// ---- the stations

// How many stations before a segment take two hops.
fn shared_stations(edition: Edition, path: &[u8], segment: u8) -> u8
    ensures { result ≡ shared edition path.now segment }
{
    if edition::is_peering_path(edition, path) {
        return 0;
    }
    segment
}

// The record of the station that a segment's first hop goes to.
fn first_station(journey: Journey<'_>, place: u8) -> u32
    ensures { let j = journey.entry in result ≡ first_record j.edition (layout_of j.itinerary.form) j.itinerary.bytes.now
        j.path.now place }
{
    let Journey {
        edition,
        path,
        itinerary,
        ..
    } = journey;
    let start = PathSegment { path, place }.start();
    let shared = shared_stations(edition, path, place);
    station_record(itinerary, start.saturating_sub(shared))
}

// The same of each segment.
pub fn first_stations(journey: Journey<'_>) -> [u32; 3]
    ensures { let j = journey.entry in result ≡ first_records j.edition (layout_of j.itinerary.form) j.itinerary.bytes.now j.path.now }
{
    [0, 1, 2].map(|place| first_station(journey, place))
}
