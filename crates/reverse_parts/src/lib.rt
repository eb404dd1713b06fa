// What a reversal writes into a path: the used lengths end for end, and all fields in the opposite order with C turned over.
//
// Ported from `try_reverse` in crates/libs/sciparse/src/proto/dataplane_path/standard/view.rs of Anapaya/scion-sdk at commit
// 866faf5ba3, and changed: rewritten in Rattle, with contracts; a view is a slice of bytes.
// Copyright 2026 Anapaya Systems
// Licensed under the Apache License, Version 2.0: see NOTICE.
#![tactic(auto)]

ghost use Rattle.std.specs.Prelude.{◌≡◌, ◌+◌, ◌*◌, ◌<◌, ◌≤◌, length};
ghost use Rattle.reverse_parts.specs.Parts.{set_lengths, swap_lengths, toggle_cons_dirs, reverse_fields};
ghost use Rattle.reverse_parts.specs.Inner.{swap_fields, reverse_parts_there};

use fields::layout::{HopFieldLayout, InfoFieldLayout, StdPathMetaLayout};
use standard_path::view;

// ---- the lengths

// The lengths have six bits, so that no byte below overflows: a type of such lengths would be taken apart in each sum, so a `requires`.
#[tactic(auto, unfolding(crate::specs::Parts::set_lengths))]
fn set_lengths(path: &mut [u8], seg0: u8, seg1: u8, seg2: u8)
    requires { (seg0 < 64) × ((seg1 < 64) × (seg2 < 64)) }
    ensures { path.new ≡ set_lengths path.old seg0 seg1 seg2 }
{
    let reserved = octets::u8_at(path, StdPathMetaLayout::SEG0_LEN)
        / StdPathMetaLayout::SEG0_LEN_HIGH_VALUES;
    octets::put_byte(
        path,
        usize::from(StdPathMetaLayout::SEG0_LEN),
        reserved * StdPathMetaLayout::SEG0_LEN_HIGH_VALUES
            + seg0 / StdPathMetaLayout::SEG0_LEN_LOW_VALUES,
    );
    octets::put_byte(
        path,
        usize::from(StdPathMetaLayout::SEG1_LEN),
        seg0 % StdPathMetaLayout::SEG0_LEN_LOW_VALUES * StdPathMetaLayout::SEG1_LEN_HIGH_VALUES
            + seg1 / StdPathMetaLayout::SEG1_LEN_LOW_VALUES,
    );
    octets::put_byte(
        path,
        usize::from(StdPathMetaLayout::SEG2_LEN),
        seg1 % StdPathMetaLayout::SEG1_LEN_LOW_VALUES * StdPathMetaLayout::SEG2_LEN_VALUES + seg2,
    );
}

// The used lengths end for end.
#[tactic(auto, unfolding(crate::specs::Parts::swap_lengths))]
pub fn swap_lengths(path: &mut [u8])
    ensures { path.new ≡ swap_lengths path.old }
{
    let seg0 = view::seg0_len(path);
    let seg1 = view::seg1_len(path);
    let seg2 = view::seg2_len(path);
    if seg1 == 0 {
        return;
    }
    if seg2 == 0 {
        set_lengths(path, seg1, seg0, seg2);
    } else {
        set_lengths(path, seg2, seg1, seg0);
    }
}

// ---- the fields

// Turns C over in each info field; by index, since of a slice that was lent by chunks the library tells the length alone.
#[tactic(auto, using(crate::proofs::Flags::toggled_by_mask), // for each field, and for all
unfolding(crate::specs::Parts::toggle_cons_dir, crate::specs::Parts::toggle_cons_dirs))]
fn toggle_cons_dirs(path: &mut [u8], infos: u8)
    ensures { path.new ≡ toggle_cons_dirs infos path.old }
{
    for index in 0..infos {
        let at = InfoFieldLayout::offset(index) + usize::from(InfoFieldLayout::FLAGS);
        let flags = octets::byte_at(path, at);
        octets::put_byte(path, at, flags ^ InfoFieldLayout::CONS_DIR);
    }
}

// Exchanges two fields that lie apart, byte by byte: by `swap_with_slice`, which the library keeps out of line, a reversal of 64 hops
// takes some five times as long.
fn swap_fields(path: &mut [u8], low: usize, high: usize, size: usize)
    requires { (low + size ≤ high) × (high + size ≤ length path.old) }
    ensures { path.new ≡ swap_fields size low high path.old }
{
    for i in 0..size {
        let byte = path[low + i];
        path[low + i] = path[high + i];
        path[high + i] = byte;
    }
}

// Reverses the order of `count` fields, from both ends; by index for the same reason.
fn reverse_fields(path: &mut [u8], at: usize, size: usize, count: u8)
    requires { at + size * count ≤ length path.old }
    ensures { path.new ≡ reverse_fields at size count path.old }
{
    for index in 0..count / 2 {
        let low = at + size * usize::from(index);
        let high = at + size * usize::from(count - 1 - index);
        swap_fields(path, low, high, size);
    }
}

// All of them; nothing where they are not all there.
#[tactic(auto, unfolding(crate::specs::Inner::reverse_parts_there, crate::specs::Parts::reverse_parts))]
pub fn reverse_parts(path: &mut [u8], infos: u8, hops: u8)
    ensures { path.new ≡ reverse_parts_there infos hops path.old }
{
    if path.len() < HopFieldLayout::offset(infos, hops) {
        return;
    }
    let first_info = InfoFieldLayout::offset(0);
    let first_hop = HopFieldLayout::offset(infos, 0);
    toggle_cons_dirs(path, infos);
    reverse_fields(path, first_info, InfoFieldLayout::SIZE_BYTES, infos);
    reverse_fields(path, first_hop, HopFieldLayout::SIZE_BYTES, hops);
}
