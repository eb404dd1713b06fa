// What is asked of each segment of a path, at the stations from a record on that its first hop goes to.
ghost use Rattle.std.specs.Prelude.{◌≡◌, ◌-◌, ◌<◌, get_or};
ghost use Rattle.aes.specs.ByTable.{round_table};
ghost use Rattle.standard_path.specs.Header.{infos, info_field};
ghost use Rattle.records.specs.Layout.{layout_of};
ghost use Rattle.records.specs.Records.{record_after};
ghost use Rattle.segment_check.specs.Segment.{each_below, hop_of, peering_hop_of, chained_seg_id, segment_fits_from};

use crate::hops::{HopPlace, PathSegment};
use crate::journey::Journey;
use edition::Edition;
use hop_check::hop_fits;
use hop_mac::mac_beta_step;
use standard_path::view;
use station::Station;

// ---- a segment

// The record of the station behind this one. Behind the last it is 0, 01's own for no record: a chain ends there, but a hop is asked of
// record 0.
#[tactic(auto, unfolding(records::specs::Records::record_after))]
fn next_station(station: Station<'_>) -> u32
    ensures { let s = station.entry in result ≡ record_after (layout_of s.itinerary.form) s.itinerary.bytes.now s.index 1 }
{
    if station.index == 0 {
        return 0;
    }
    station.itinerary.next(station.index)
}

// The SegID that a hop is checked with, from that of the hop before it: that hop's MAC goes in, or, against construction, its own. So
// the MACs that go in are those from the first on, or from the second.
#[tactic(auto, using(crate::proofs::Walked::chained_past, crate::proofs::Walked::chained_on))]
fn chained_segment_id(edition: Edition, segment: PathSegment<'_>, before: u16, hop: HopPlace) -> u16
    requires { before ≡ chained_seg_id (peering_hop_of edition segment.path.now segment.place)
        (info_field segment.path.now segment.place) (hop_of segment.path.now segment.place) (hop - 1) }
    ensures { result ≡ chained_seg_id (peering_hop_of edition segment.entry.path.now segment.entry.place)
        (info_field segment.entry.path.now segment.entry.place) (hop_of segment.entry.path.now segment.entry.place) hop }
{
    let cons_dir = fields::cons_dir(segment.info_field());
    let hop = hop.number();
    if hop < 1 {
        return before;
    }
    let first = u8::from(!cons_dir);
    let stepped = HopPlace::new(first + hop - 1);
    if segment.is_peering_hop(edition, stepped) {
        return before;
    }
    mac_beta_step(before, fields::mac(segment.hop_field(stepped)))
}

// A segment whose first hop is at the station with this record.
#[tactic(auto, using(crate::proofs::Walked::segment_early))]
fn segment_fits(journey: Journey<'_>, table: &[u8; 1024], first: u32, place: u8) -> bool
    requires { table.now ≡ round_table }
    ensures { let j = journey.entry in result ≡ segment_fits_from j.edition (layout_of j.itinerary.form) j.itinerary.bytes.now first
        j.earliest j.latest j.path.now place }
{
    let segment = PathSegment {
        path: journey.path,
        place,
    };
    let info = segment.info_field();
    if journey.earliest < fields::timestamp(info) {
        return false;
    }
    let count = segment.hop_count();
    let mut index = first;
    let mut segment_id = fields::segment_id(info);
    // By number: SegID and station both go on from one hop to the next, and behind the last station, where a chain ends, record 0 is asked.
    for hop in 0..count {
        let hop_place = HopPlace::new(hop);
        let station = Station {
            itinerary: journey.itinerary,
            index,
        };
        segment_id = chained_segment_id(journey.edition, segment, segment_id, hop_place);
        if !hop_fits(
            table,
            station,
            journey.latest,
            info,
            segment.hop_field(hop_place),
            segment_id,
            hop == 0,
            count <= hop + 1,
        ) {
            return false;
        }
        index = next_station(station);
    }
    true
}

// ---- all segments

// Each segment, its first hop at the station with the record given. The round table is copied here, once for all MACs.
pub fn segments_fit(journey: Journey<'_>, firsts: [u32; 3]) -> bool
    ensures { let j = journey.entry in result ≡ each_below (infos j.path.now) (λ s. segment_fits_from j.edition
        (layout_of j.itinerary.form) j.itinerary.bytes.now (get_or firsts s 0) j.earliest j.latest j.path.now s) }
{
    let table = aes::round_table();
    (0..view::info_field_count(journey.path))
        .zip(firsts.iter())
        .all(|(place, first)| segment_fits(journey, &table, *first, place))
}
