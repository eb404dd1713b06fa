// The check of a path's joints: the last hop of a segment and the first of the next, at one station, or at two over a peering link.
#![tactic(auto)]

ghost use Rattle.std.specs.Prelude.{◌≡◌, ◌+◌, ◌-◌, ◌<◌, get_or};
ghost use Rattle.standard_path.specs.Header.{infos};
ghost use Rattle.records.specs.Layout.{layout_of};
ghost use Rattle.station.specs.Station.{station_at};
ghost use Rattle.segment_check.specs.Segment.{each_below};
ghost use Rattle.joint_check.specs.Joint.{change_fits};
ghost use Rattle.joint_check.specs.Inner.{joint_fits_from};

use hop_check::{arrives_by, leaves_by};
use interface_table::{is_allowed_link_pair, link_type};
use segment_check::hops::PathSegment;
use segment_check::journey::Journey;
use standard_path::view;
use station::{Station, station_record};

// From a hop to the next segment's first, at this station. The fields are parts of the path, handed on, as 01 has it.
#[tactic(auto, unfolding(crate::specs::Joint::change_fits))]
fn change_fits(
    station: Station<'_>,
    info: &[u8],
    hop: &[u8],
    next_info: &[u8],
    next_hop: &[u8],
) -> bool
    ensures { let s = station.entry in result ≡ change_fits (station_at (layout_of s.itinerary.form) s.itinerary.bytes.now s.index)
        info.now hop.now next_info.now next_hop.now }
{
    let Some(into) = station.lookup(fields::ingress_interface(hop, info)) else {
        return false;
    };
    let Some(out) = station.lookup(fields::egress_interface(next_hop, next_info)) else {
        return false;
    };
    is_allowed_link_pair(link_type(into), link_type(out))
}

// From a segment to the next, whose first hop is at the station with this record.
fn joint_fits(journey: Journey<'_>, first: u32, place: u8) -> bool
    requires { place < 3 }
    ensures { let j = journey.entry in result ≡ joint_fits_from j.edition (layout_of j.itinerary.form) j.itinerary.bytes.now first
        j.path.now place }
{
    let Journey {
        edition,
        path,
        itinerary,
        ..
    } = journey;
    let segment = PathSegment { path, place };
    let next = PathSegment {
        path,
        place: place + 1,
    };
    let info = segment.info_field();
    let hop = segment.last_hop();
    let next_info = next.info_field();
    let next_hop = next.first_hop();
    let station = Station {
        itinerary,
        index: first,
    };
    let arrives = arrives_by(station, next_info, next_hop);
    if edition::is_peering_path(edition, path) {
        let here = Station {
            itinerary,
            index: station_record(itinerary, segment.last_place()),
        };
        return leaves_by(here, info, hop) & arrives;
    }
    change_fits(station, info, hop, next_info, next_hop) & arrives
}

// Each joint, the first hop of each segment at the station with the record given.
pub fn joints_fit(journey: Journey<'_>, firsts: [u32; 3]) -> bool
    ensures { let j = journey.entry in result ≡ each_below (infos j.path.now - 1) (λ s. joint_fits_from j.edition
        (layout_of j.itinerary.form) j.itinerary.bytes.now (get_or firsts (s + 1) 0) j.path.now s) }
{
    let joints = view::info_field_count(journey.path).saturating_sub(1);
    (0..joints)
        .zip(firsts[1..].iter())
        .all(|(place, first)| joint_fits(journey, *first, place))
}
