// Sizes and offsets of a standard path, in bytes.
//
// Ported from crates/libs/sciparse/src/proto/dataplane_path/standard/layout.rs of Anapaya/scion-sdk at commit 866faf5ba3, and changed:
// rewritten in Rattle, with contracts; offsets in bytes where the Rust has ranges of bits; the annotations are left out.
// Copyright 2026 Anapaya Systems
// Licensed under the Apache License, Version 2.0: see NOTICE.
ghost use Rattle.std.specs.Prelude.{◌≡◌};
ghost use Rattle.fields.specs.Layout.{info_offset, hop_offset};

#[derive(Clone, Copy)]
pub struct StdPathMetaLayout;

impl StdPathMetaLayout {
    pub const SIZE_BYTES: usize = 4;

    // The byte in which each field starts: CurrINF and CurrHF are in one byte, then there are six reserved bits, then the lengths.
    pub const CURR_INFO_FIELD: u8 = 0;

    pub const CURR_HOP_FIELD: u8 = 0;

    pub const SEG0_LEN: u8 = 1;

    pub const SEG1_LEN: u8 = 2;

    pub const SEG2_LEN: u8 = 3;

    // The byte with the low bits of a length that lies in two bytes.
    pub const SEG0_LEN_LOW: u8 = 2;

    pub const SEG1_LEN_LOW: u8 = 3;

    // How many values the bits of each field have, or those in each of its two bytes.
    pub const CURR_INFO_FIELD_VALUES: u8 = 4;

    pub const CURR_HOP_FIELD_VALUES: u8 = 0x40;

    pub const SEG0_LEN_HIGH_VALUES: u8 = 4;

    pub const SEG0_LEN_LOW_VALUES: u8 = 0x10;

    pub const SEG1_LEN_HIGH_VALUES: u8 = 0x10;

    pub const SEG1_LEN_LOW_VALUES: u8 = 4;

    pub const SEG2_LEN_VALUES: u8 = 0x40;

    // 01's limit, one more than the Rust's constant of this name.
    pub const MAX_TOTAL_HOPS: u8 = 64;
}

#[derive(Clone, Copy)]
pub struct InfoFieldLayout;

impl InfoFieldLayout {
    pub const SIZE_BYTES: usize = 8;

    pub const FLAGS: u8 = 0;

    pub const SEGMENT_ID: u8 = 2;

    pub const TIMESTAMP: u8 = 4;

    // The bit of each flag.
    pub const CONS_DIR: u8 = 1;

    pub const PEERING: u8 = 2;

    // Where the info field with this index starts.
    pub fn offset(index: u8) -> usize
        ensures { result ≡ info_offset index }
    {
        StdPathMetaLayout::SIZE_BYTES + InfoFieldLayout::SIZE_BYTES * usize::from(index)
    }
}

#[derive(Clone, Copy)]
pub struct HopFieldLayout;

impl HopFieldLayout {
    pub const SIZE_BYTES: usize = 12;

    pub const FLAGS: u8 = 0;

    pub const EXP_TIME: u8 = 1;

    pub const CONS_INGRESS: u8 = 2;

    pub const CONS_EGRESS: u8 = 4;

    pub const MAC: u8 = 6;

    pub const MAC_SIZE_BYTES: usize = 6;

    // The bit of each flag.
    pub const CONS_EGRESS_ROUTER_ALERT: u8 = 1;

    pub const CONS_INGRESS_ROUTER_ALERT: u8 = 2;

    // Where the hop field with this index starts, behind the info fields.
    pub fn offset(infos: u8, index: u8) -> usize
        ensures { result ≡ hop_offset infos index }
    {
        StdPathMetaLayout::SIZE_BYTES
            + InfoFieldLayout::SIZE_BYTES * usize::from(infos)
            + HopFieldLayout::SIZE_BYTES * usize::from(index)
    }
}
