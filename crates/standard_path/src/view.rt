// The header of a standard path, read out of its bytes on all inputs, and its indices set in them: a byte past the end counts as 0.
//
// Ported from crates/libs/sciparse/src/proto/dataplane_path/standard/view.rs and types.rs of Anapaya/scion-sdk at commit
// 866faf5ba3, and changed: rewritten in Rattle, with contracts; a view is a slice of bytes.
// Copyright 2026 Anapaya Systems
// Licensed under the Apache License, Version 2.0: see NOTICE.
ghost use Rattle.std.specs.Prelude.{◌≡◌, ◌+◌, ◌<◌, eqb, take, drop};
ghost use Rattle.fields.specs.Layout.{hop_offset};
ghost use Rattle.standard_path.specs.Meta.{curr_inf, curr_hf, seg0_len, seg1_len, seg2_len, set_curr_inf, set_curr_hf};
ghost use Rattle.standard_path.specs.Header.{infos, hops, info_field, hop_field, header_number, header_check};
ghost use Rattle.standard_path.specs.Header.{segment_among, segment_index};

use fields::layout::{HopFieldLayout, InfoFieldLayout, StdPathMetaLayout};

// ---- the meta word. Its bit fields are read by division: the layout's constants say how many values a field has. Each reader reads
// one field: for CurrHF and the third length, which fill the low bits of a byte, one function would take two constants, and so say less

pub fn curr_info_field_idx(path: &[u8]) -> u8
    ensures { result ≡ curr_inf path.now }
{
    octets::u8_at(path, StdPathMetaLayout::CURR_INFO_FIELD)
        / StdPathMetaLayout::CURR_HOP_FIELD_VALUES
}

pub fn curr_hop_field_idx(path: &[u8]) -> u8
    ensures { result ≡ curr_hf path.now }
{
    octets::u8_at(path, StdPathMetaLayout::CURR_HOP_FIELD)
        % StdPathMetaLayout::CURR_HOP_FIELD_VALUES
}

// Each of the first two lengths lies in two bytes; one function for both would take five constants, and so say less.
pub fn seg0_len(path: &[u8]) -> u8
    ensures { result ≡ seg0_len path.now }
{
    octets::u8_at(path, StdPathMetaLayout::SEG0_LEN) % StdPathMetaLayout::SEG0_LEN_HIGH_VALUES
        * StdPathMetaLayout::SEG0_LEN_LOW_VALUES
        + octets::u8_at(path, StdPathMetaLayout::SEG0_LEN_LOW)
            / StdPathMetaLayout::SEG1_LEN_HIGH_VALUES
}

pub fn seg1_len(path: &[u8]) -> u8
    ensures { result ≡ seg1_len path.now }
{
    octets::u8_at(path, StdPathMetaLayout::SEG1_LEN) % StdPathMetaLayout::SEG1_LEN_HIGH_VALUES
        * StdPathMetaLayout::SEG1_LEN_LOW_VALUES
        + octets::u8_at(path, StdPathMetaLayout::SEG1_LEN_LOW) / StdPathMetaLayout::SEG2_LEN_VALUES
}

pub fn seg2_len(path: &[u8]) -> u8
    ensures { result ≡ seg2_len path.now }
{
    octets::u8_at(path, StdPathMetaLayout::SEG2_LEN) % StdPathMetaLayout::SEG2_LEN_VALUES
}

#[tactic(auto, unfolding(crate::specs::Header::infos))]
pub fn info_field_count(path: &[u8]) -> u8
    ensures { result ≡ infos path.now }
{
    u8::from(seg0_len(path) != 0) + u8::from(seg1_len(path) != 0) + u8::from(seg2_len(path) != 0)
}

#[tactic(auto, unfolding(crate::specs::Header::hops))]
pub fn hop_field_count(path: &[u8]) -> u8
    ensures { result ≡ hops path.now }
{
    seg0_len(path) + seg1_len(path) + seg2_len(path)
}

// The setters are two: each has the other's bits to keep. Of this index two bits are kept.
#[tactic(auto, unfolding(crate::specs::Meta::set_curr_inf))]
pub fn set_curr_info_field(path: &mut [u8], index: u8)
    ensures { path.new ≡ set_curr_inf path.old index }
{
    let kept = curr_hop_field_idx(path);
    octets::put_byte(
        path,
        usize::from(StdPathMetaLayout::CURR_INFO_FIELD),
        index % StdPathMetaLayout::CURR_INFO_FIELD_VALUES * StdPathMetaLayout::CURR_HOP_FIELD_VALUES
            + kept,
    );
}

// Of this index six bits are kept.
#[tactic(auto, unfolding(crate::specs::Meta::set_curr_hf))]
pub fn set_curr_hop_field(path: &mut [u8], index: u8)
    ensures { path.new ≡ set_curr_hf path.old index }
{
    let kept = curr_info_field_idx(path);
    octets::put_byte(
        path,
        usize::from(StdPathMetaLayout::CURR_HOP_FIELD),
        kept * StdPathMetaLayout::CURR_HOP_FIELD_VALUES
            + index % StdPathMetaLayout::CURR_HOP_FIELD_VALUES,
    );
}

// ---- parts

// As many bytes from a place on, or those that there are. By `get(at..)`, with an empty slice in place of none, `move_egress` took 72
// instructions in place of 55 (callgrind): that slice is another pointer to choose.
pub fn part(path: &[u8], at: usize, size: usize) -> &[u8]
    ensures { result.now ≡ take size (drop at path.now) }
{
    let rest = &path[at.min(path.len())..];
    &rest[..size.min(rest.len())]
}

#[tactic(auto, unfolding(crate::specs::Header::info_field))]
pub fn info_field(path: &[u8], index: u8) -> &[u8]
    ensures { result.now ≡ info_field path.now index }
{
    part(
        path,
        InfoFieldLayout::offset(index),
        InfoFieldLayout::SIZE_BYTES,
    )
}

// Where the hop field with this index starts.
pub fn hop_field_offset(path: &[u8], index: u8) -> usize
    ensures { result ≡ hop_offset (infos path.now) index }
{
    HopFieldLayout::offset(info_field_count(path), index)
}

// The hop field that starts at a place.
pub fn hop_field_at(path: &[u8], at: usize) -> &[u8]
    ensures { result.now ≡ take 12 (drop at path.now) }
{
    part(path, at, HopFieldLayout::SIZE_BYTES)
}

#[tactic(auto, unfolding(crate::specs::Header::hop_field))]
pub fn hop_field(path: &[u8], index: u8) -> &[u8]
    ensures { result.now ≡ hop_field path.now index }
{
    hop_field_at(path, hop_field_offset(path, index))
}

pub fn curr_info_field(path: &[u8]) -> &[u8]
    ensures { result.now ≡ info_field path.now (curr_inf path.now) }
{
    info_field(path, curr_info_field_idx(path))
}

pub fn curr_hop_field(path: &[u8]) -> &[u8]
    ensures { result.now ≡ hop_field path.now (curr_hf path.now) }
{
    hop_field(path, curr_hop_field_idx(path))
}

// ---- the header as a whole

// Why a header is turned down: 01's questions 2, 3 and 4.
#[derive(Clone, Copy)]
pub enum HeaderError {
    MetaTooShort,
    DataTooShort,
    TooManyHops,
}

// The number is one view of an error, and 01 asks for it by that word: so a function, and no `From`.
pub fn header_number(error: HeaderError) -> u8
    ensures { result ≡ header_number error }
{
    match error {
        HeaderError::MetaTooShort => 2,
        HeaderError::DataTooShort => 3,
        HeaderError::TooManyHops => 4,
    }
}

// Whether the bytes hold the whole header, and it has at most 64 hops.
#[tactic(auto, unfolding(crate::specs::Header::header_check, crate::specs::Header::header_size, questions::specs::Questions::asks))]
pub fn check_header(path: &[u8]) -> Result<(), HeaderError>
    ensures { result ≡ header_check path.now }
{
    if path.len() < StdPathMetaLayout::SIZE_BYTES {
        return Err(HeaderError::MetaTooShort);
    }
    let hops = hop_field_count(path);
    if path.len() < HopFieldLayout::offset(info_field_count(path), hops) {
        return Err(HeaderError::DataTooShort);
    }
    if StdPathMetaLayout::MAX_TOTAL_HOPS < hops {
        return Err(HeaderError::TooManyHops);
    }
    Ok(())
}

// The segment that a hop lies in, and whether the hop is its first, and its last.
#[derive(Clone, Copy)]
pub struct SegmentIndex {
    pub index: u8,
    pub start: bool,
    pub end: bool,
}

// The hops of the segment are those from `start` up to `end`.
fn in_segment(index: u8, start: u8, end: u8, hop: u8) -> SegmentIndex
    requires { hop < end }
    ensures { result ≡ record { index = index; start = eqb hop start; end = eqb (hop + 1) end } }
{
    SegmentIndex {
        index,
        start: hop == start,
        end: hop + 1 == end,
    }
}

// The lengths have six bits, so that their sums don't overflow: a type of such lengths would be taken apart in each sum, so a `requires`.
#[tactic(auto, unfolding(crate::specs::Header::segment_among))]
fn segment_of(seg0: u8, seg1: u8, seg2: u8, hop: u8) -> Option<SegmentIndex>
    requires { (seg0 < 64) × ((seg1 < 64) × (seg2 < 64)) }
    ensures { result ≡ segment_among seg0 seg1 seg2 hop }
{
    let (one, two, three) = (seg0, seg0 + seg1, seg0 + seg1 + seg2);
    if hop < one {
        Some(in_segment(0, 0, one, hop))
    } else if hop < two {
        Some(in_segment(1, one, two, hop))
    } else if hop < three {
        Some(in_segment(2, two, three, hop))
    } else {
        None
    }
}

#[tactic(auto, unfolding(crate::specs::Header::segment_index))]
pub fn calculate_segment_index(path: &[u8], hop_idx: u8) -> Option<SegmentIndex>
    ensures { result ≡ segment_index path.now hop_idx }
{
    segment_of(seg0_len(path), seg1_len(path), seg2_len(path), hop_idx)
}
