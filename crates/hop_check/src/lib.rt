// What is asked of a hop at its station: expiry, MAC, the interface that it arrives by and the one that it leaves by.
#![tactic(auto)]

ghost use Rattle.std.specs.Prelude.{◌≡◌};
ghost use Rattle.records.specs.Layout.{layout_of};
ghost use Rattle.records.specs.Records.{key_of};
ghost use Rattle.station.specs.Station.{station_at};
ghost use Rattle.hop_check.specs.Hop.{mac_fits, arrives_by, leaves_by, hop_fits};
ghost use Rattle.hop_check.specs.Inner.{key_mac_by};

use aes_keys::expand_key;
use cmac::KeySchedule;
use station::Station;
use validator::{expected_mac, mac_number};

// Here and below, hop field and info field are two parts of the path, handed on, as 01 has it.
#[tactic(auto, unfolding(crate::specs::Hop::mac_fits))]
fn mac_fits(table: &[u8; 1024], key: [u8; 16], info: &[u8], hop: &[u8], segment_id: u16) -> bool
    ensures { result ≡ mac_fits (key_mac_by table.now key) info.now hop.now segment_id }
{
    let round_keys = expand_key(key);
    let schedule = KeySchedule::new(table, &round_keys);
    let expected = expected_mac(schedule, hop, info, segment_id);
    let found = mac_number(fields::mac(hop));
    expected == found
}

#[tactic(auto, unfolding(crate::specs::Hop::arrives_by))]
pub fn arrives_by(station: Station<'_>, info: &[u8], hop: &[u8]) -> bool
    ensures { let s = station.entry in result ≡
        arrives_by (station_at (layout_of s.itinerary.form) s.itinerary.bytes.now s.index) info.now hop.now }
{
    let ingress = fields::ingress_interface(hop, info);
    (ingress == 0) | (ingress == station.arrival())
}

#[tactic(auto, unfolding(crate::specs::Hop::leaves_by))]
pub fn leaves_by(station: Station<'_>, info: &[u8], hop: &[u8]) -> bool
    ensures { let s = station.entry in result ≡
        leaves_by (station_at (layout_of s.itinerary.form) s.itinerary.bytes.now s.index) info.now hop.now }
{
    let listed = station.lookup(fields::egress_interface(hop, info));
    listed.is_some_and(interface_table::is_up)
}

// A hop of a segment, at this station.
#[tactic(auto, unfolding(crate::specs::Hop::hop_fits, station::specs::Station::station_with))]
pub fn hop_fits(
    table: &[u8; 1024],
    station: Station<'_>,
    latest: u32,
    info: &[u8],
    hop: &[u8],
    segment_id: u16,
    first: bool,
    last: bool,
) -> bool
    ensures { let s = station.entry in result ≡
        hop_fits (key_mac_by table.now (key_of (layout_of s.itinerary.form) s.itinerary.bytes.now s.index))
        (station_at (layout_of s.itinerary.form) s.itinerary.bytes.now s.index) latest info.now hop.now
        segment_id first last }
{
    (latest <= fields::expiry_timestamp(hop, info))
        & mac_fits(table, station.key(), info, hop, segment_id)
        & (first | arrives_by(station, info, hop))
        & (last | leaves_by(station, info, hop))
}
