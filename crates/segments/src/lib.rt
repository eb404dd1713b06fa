// The segments of a standard path before the first zero length, one after the other.
//
// Ported from crates/libs/sciparse/src/proto/dataplane_path/standard/view.rs of Anapaya/scion-sdk at commit 866faf5ba3, and changed:
// rewritten in Rattle, with contracts; `SegmentIterator` keeps the path and its place in it, and `next` gives a segment by its
// numbers, of which `view::info_field` and `hop_fields` make its parts.
// Copyright 2026 Anapaya Systems
// Licensed under the Apache License, Version 2.0: see NOTICE.
#![tactic(auto)]

ghost use Rattle.std.specs.Prelude.{◌≡◌, ◌+◌, ◌<◌, eqb, IfSome, ⊤};
ghost use Rattle.std.specs.Iterator.{YieldsFirst, item_count, MakesProgress};
ghost use Rattle.segments.specs.Segments.{segment_count, seg_len, hop_fields, next_segment, place_after};
ghost use Rattle.segments.specs.Segments.{started, step_of, advanced, rest};

use fields::layout::HopFieldLayout;
use standard_path::view;

// ---- the segments

// The segments before the first zero length.
#[tactic(auto, unfolding(crate::specs::Segments::segment_count, crate::specs::Segments::segments))]
pub fn segment_count(path: &[u8]) -> u8
    ensures { result ≡ segment_count path.now }
{
    if view::seg0_len(path) == 0 {
        0
    } else if view::seg1_len(path) == 0 {
        1
    } else if view::seg2_len(path) == 0 {
        2
    } else {
        3
    }
}

pub fn is_empty(path: &[u8]) -> bool
    ensures { result ≡ eqb (segment_count path.now) 0 }
{
    segment_count(path) == 0
}

// 0 from index 3 on, where `length` of segment_check has the third's: so they are two.
#[tactic(auto, unfolding(crate::specs::Segments::seg_len))]
fn seg_len(path: &[u8], index: u8) -> u8
    ensures { result ≡ seg_len path.now index }
{
    let lengths = [
        view::seg0_len(path),
        view::seg1_len(path),
        view::seg2_len(path),
    ];
    lengths.get(usize::from(index)).copied().unwrap_or(0)
}

// ---- a step along the segments

// A segment by its numbers: its info field, its first hop field, how many hop fields it has; and the place behind it.
#[derive(Clone, Copy)]
pub struct Segment {
    pub info_idx: u8,
    pub first_hop: u8,
    pub hop_count: u8,
    pub next: SegmentPlace,
}

impl Segment {
    // Its hop fields, as one part of the path.
    #[tactic(auto, unfolding(crate::specs::Segments::hop_fields))]
    pub fn hop_fields(self, path: &[u8]) -> &[u8]
        ensures { result.now ≡ hop_fields path.now self.first_hop self.hop_count }
    {
        let at = HopFieldLayout::offset(view::info_field_count(path), self.first_hop);
        view::part(
            path,
            at,
            HopFieldLayout::SIZE_BYTES * usize::from(self.hop_count),
        )
    }
}

// The next segment, and its first hop.
#[derive(Clone, Copy)]
pub struct SegmentPlace {
    pub seg_idx: u8,
    pub hop_idx: u8,
}

// The segment at a place. At a place whose hops are not all there, which no walk from the first place meets, there is none.
#[tactic(auto, using(crate::proofs::Walk::count_at_most), unfolding(crate::specs::Segments::next_segment))]
pub fn next_segment(path: &[u8], place: SegmentPlace) -> Option<Segment>
    ensures segment { result ≡ next_segment path.now place }
    ensures fits { IfSome result (λ s. (s.info_idx < 3) × (s.first_hop + s.hop_count < 256)) }
{
    let segment = place.seg_idx;
    let first = place.hop_idx;
    if segment_count(path) <= segment {
        return None;
    }
    let count = seg_len(path, segment);
    if u16::from(view::hop_field_count(path)) < u16::from(first) + u16::from(count) {
        return None;
    }
    Some(Segment {
        info_idx: segment,
        first_hop: first,
        hop_count: count,
        next: SegmentPlace {
            seg_idx: segment + 1,
            hop_idx: first + count,
        },
    })
}

// The place behind a step, from whatever path it was taken; where it gave no segment, the place itself.
pub fn place_after(place: SegmentPlace, step: Option<Segment>) -> SegmentPlace
    ensures { result ≡ place_after place step }
{
    step.map_or(place, |segment| segment.next)
}

// The place behind the segment at a place; where there is none, the place itself.
pub fn next_place(path: &[u8], place: SegmentPlace) -> SegmentPlace
    ensures { result ≡ place_after place (next_segment path.now place) }
{
    place_after(place, next_segment(path, place))
}

// ---- the iterator

// It is plain data but for the path, so a copy of it is a walk of its own.
#[derive(Clone, Copy)]
pub struct SegmentIterator<'a> {
    path: &'a [u8],
    place: SegmentPlace,
}

impl<'a> SegmentIterator<'a> {
    pub fn new(path: &'a [u8]) -> SegmentIterator<'a>
        ensures { result ≡ started path.entry }
    {
        SegmentIterator {
            path,
            place: SegmentPlace {
                seg_idx: 0,
                hop_idx: 0,
            },
        }
    }
}

impl<'a> Iterator for SegmentIterator<'a> {
    type Item = Segment;

    ghost next_gives = { YieldsFirst rest };

    ghost remaining = { item_count rest };

    #[tactic(auto, using(crate::proofs::Walk::rest_none, crate::proofs::Walk::rest_some))]
    fn next(&mut self) -> Option<Segment>
        ensures step { (result ≡ step_of self.old) × (self.new ≡ advanced self.old) }
        ensures steps { YieldsFirst rest self.old result self.new }
        ensures goes { MakesProgress (λ _. ⊤) (item_count rest) self.old result self.new }
    {
        let step = next_segment(self.path, self.place);
        self.place = place_after(self.place, step);
        step
    }
}
