// A segment of a path: where its hops stand in the path.
ghost use Rattle.std.specs.Prelude.{ℕ, ◌≡◌, ◌+◌, ◌-◌, ◌<◌};
ghost use Rattle.standard_path.specs.Header.{info_field};
ghost use Rattle.segment_check.specs.Segment.{start_of, count_of, hop_of, peering_hop_of};

use edition::Edition;
use standard_path::view;
use std::marker::Model;

// No method, since there the check does not know that the path's items are below 256. The `seg_len` of segments is another function: from
// place 3 on it gives 0, and this the third length.
fn length(path: &[u8], place: u8) -> u8
    ensures { (result ≡ count_of path.now place) × (result < 64) }
{
    match place {
        0 => view::seg0_len(path),
        1 => view::seg1_len(path),
        _ => view::seg2_len(path),
    }
}

// The place of a hop in its segment. A segment has fewer than 64, so its start and the place never overflow.
#[derive(Clone, Copy)]
pub(crate) struct HopPlace {
    place: u8,
}

impl Model for HopPlace {
    ghost Value = { ℕ };

    ghost view = { λ hop. hop.place };

    ghost invariant = { λ hop. hop.place < 64 };

    ghost inverse = { λ n. record { place = n } };
}

impl HopPlace {
    pub(crate) fn new(place: u8) -> Self
        requires { place < 64 }
        ensures { result ≡ place }
    {
        HopPlace { place }
    }

    pub(crate) fn number(self) -> u8
        ensures { result ≡ self }
    {
        self.place
    }
}

// The segment with this place among the path's, whether the path has it or not.
#[derive(Clone, Copy)]
pub struct PathSegment<'a> {
    pub path: &'a [u8],
    pub place: u8,
}

impl<'a> PathSegment<'a> {
    pub fn start(self) -> u8
        ensures { (result ≡ start_of self.entry.path.now self.entry.place) × (result < 127) }
    {
        match self.place {
            0 => 0,
            1 => length(self.path, 0),
            _ => length(self.path, 0) + length(self.path, 1),
        }
    }

    pub fn hop_count(self) -> u8
        ensures { (result ≡ count_of self.entry.path.now self.entry.place) × (result < 64) }
    {
        length(self.path, self.place)
    }

    pub fn info_field(self) -> &'a [u8]
        ensures { result.now ≡ info_field self.entry.path.now self.entry.place }
    {
        view::info_field(self.path, self.place)
    }

    // The hop field with this place in the segment.
    pub(crate) fn hop_field(self, hop: HopPlace) -> &'a [u8]
        ensures { result.now ≡ hop_of self.entry.path.now self.entry.place hop }
    {
        view::hop_field(self.path, self.start() + hop.place)
    }

    pub fn first_hop(self) -> &'a [u8]
        ensures { result.now ≡ hop_of self.entry.path.now self.entry.place 0 }
    {
        self.hop_field(HopPlace::new(0))
    }

    // The place of its last hop among the path's; where it has none, of the one that would be its first.
    pub fn last_place(self) -> u8
        ensures { result ≡ start_of self.entry.path.now self.entry.place + (count_of self.entry.path.now self.entry.place - 1) }
    {
        self.start() + self.hop_count().saturating_sub(1)
    }

    pub fn last_hop(self) -> &'a [u8]
        ensures { result.now ≡ hop_of self.entry.path.now self.entry.place (count_of self.entry.path.now self.entry.place - 1) }
    {
        view::hop_field(self.path, self.last_place())
    }

    pub(crate) fn is_peering_hop(self, edition: Edition, hop: HopPlace) -> bool
        ensures { result ≡ peering_hop_of edition self.entry.path.now self.entry.place hop }
    {
        edition::is_peering_hop(edition, self.path, self.start() + hop.place)
    }
}
