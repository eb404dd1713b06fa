// When a standard path ends: with the least expiry of its segments' hops.
//
// Ported from `expiration` in crates/libs/sciparse/src/proto/dataplane_path/standard/view.rs of Anapaya/scion-sdk at commit
// 866faf5ba3, and changed: rewritten in Rattle, with contracts; a header that is not whole is refused.
// Copyright 2026 Anapaya Systems
// Licensed under the Apache License, Version 2.0: see NOTICE.
#![tactic(auto)]

ghost use Rattle.std.specs.Prelude.{◌≡◌};
ghost use Rattle.expiration.specs.Expiration.{segment_expiry, path_expiry, expiration, expiration_number};

use fields::layout::HopFieldLayout;
use segments::{Segment, SegmentIterator};
use standard_path::view;
use standard_path::view::HeaderError;

// The least expiry of a segment's hops, which is that of the least ExpTime.
fn segment_expiry(path: &[u8], segment: Segment) -> u32
    ensures { result ≡ segment_expiry path.now segment }
{
    let start = fields::timestamp(view::info_field(path, segment.info_idx));
    let hops = segment.hop_fields(path);
    // By index: a hop field that the path does not have counts with ExpTime 0, and chunks would leave it out.
    let exp_time = |index: u8| {
        octets::byte_at(
            hops,
            HopFieldLayout::SIZE_BYTES * usize::from(index) + usize::from(HopFieldLayout::EXP_TIME),
        )
    };
    let least = (0..segment.hop_count).map(exp_time).min();
    least.map_or(u32::MAX, |units| fields::expiry(start, units))
}

// The least expiry of the path's segments, 0 if it has none.
#[tactic(auto, unfolding(crate::specs::Expiration::path_expiry))]
fn path_expiry(path: &[u8]) -> u32
    ensures { result ≡ path_expiry path.now }
{
    if segments::is_empty(path) {
        return 0;
    }
    // By a fold: `min`, which asks the iterator at two places, takes 1.4 to 1.6 times as long.
    SegmentIterator::new(path)
        .map(|segment| segment_expiry(path, segment))
        .fold(u32::MAX, |least, expiry| least.min(expiry))
}

// When the path ends, in seconds of Unix time; or the first of 01's questions 2, 3 and 4 that is answered no.
#[tactic(auto, using(standard_path::proofs::HeaderAsked::header_answers), unfolding(crate::specs::Expiration::expiration))]
pub fn expiration(path: &[u8]) -> Result<u32, HeaderError>
    ensures { result ≡ expiration path.now }
{
    view::check_header(path)?;
    Ok(path_expiry(path))
}

// 01's number of a refusal, one view of it, so a function and no `From`; 0, which no refusal has, for a time, as its definition has it.
pub fn expiration_number(answer: Result<u32, HeaderError>) -> u8
    ensures { result ≡ expiration_number answer }
{
    match answer {
        Ok(_) => 0,
        Err(error) => view::header_number(error),
    }
}
