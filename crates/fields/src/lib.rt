// An info field and a hop field of a standard path, read out of their bytes on all inputs: a byte past the end counts as 0. Sizes and
// offsets are in `layout`.
//
// Ported from crates/libs/sciparse/src/proto/dataplane_path/standard/view.rs and types.rs of Anapaya/scion-sdk at commit
// 866faf5ba3, and changed: rewritten in Rattle, with contracts; a view is a slice of bytes.
// Copyright 2026 Anapaya Systems
// Licensed under the Apache License, Version 2.0: see NOTICE.
#![tactic(auto)]

pub mod layout;

ghost use Rattle.std.specs.Prelude.{◌≡◌};
ghost use Rattle.fields.specs.Fields.{cons_dir, peering, seg_id, timestamp, cons_egress_alert, cons_ingress_alert, exp_time};
ghost use Rattle.fields.specs.Fields.{cons_ingress, cons_egress, mac_field, travel_ingress, travel_egress};
ghost use Rattle.fields.specs.Fields.{by_direction, travel_ingress_alert, travel_egress_alert, expiry};

use layout::{HopFieldLayout, InfoFieldLayout};

// Each of the four readers of a flag is one line: a function for all would say no more than `&`.

// ---- an info field

#[tactic(auto, unfolding(crate::specs::Fields::cons_dir))]
pub fn cons_dir(info: &[u8]) -> bool
    ensures { result ≡ cons_dir info.now }
{
    octets::u8_at(info, InfoFieldLayout::FLAGS) & InfoFieldLayout::CONS_DIR != 0
}

// The flag P, to which only the second edition gives a meaning.
#[tactic(auto, using(crate::proofs::Flags::second_flag), unfolding(crate::specs::Fields::peering))]
pub fn peering(info: &[u8]) -> bool
    ensures { result ≡ peering info.now }
{
    octets::u8_at(info, InfoFieldLayout::FLAGS) & InfoFieldLayout::PEERING != 0
}

#[tactic(auto, unfolding(crate::specs::Fields::seg_id))]
pub fn segment_id(info: &[u8]) -> u16
    ensures { result ≡ seg_id info.now }
{
    octets::u16_at(info, InfoFieldLayout::SEGMENT_ID)
}

#[tactic(auto, unfolding(crate::specs::Fields::timestamp))]
pub fn timestamp(info: &[u8]) -> u32
    ensures { result ≡ timestamp info.now }
{
    octets::u32_at(info, InfoFieldLayout::TIMESTAMP)
}

// ---- a hop field. Each of its readers is one line: one for both interfaces would take the place of the field, as `u16_at` does

#[tactic(auto, unfolding(crate::specs::Fields::cons_egress_alert))]
pub fn cons_egress_router_alert(hop: &[u8]) -> bool
    ensures { result ≡ cons_egress_alert hop.now }
{
    octets::u8_at(hop, HopFieldLayout::FLAGS) & HopFieldLayout::CONS_EGRESS_ROUTER_ALERT != 0
}

#[tactic(auto, using(crate::proofs::Flags::second_flag), unfolding(crate::specs::Fields::cons_ingress_alert))]
pub fn cons_ingress_router_alert(hop: &[u8]) -> bool
    ensures { result ≡ cons_ingress_alert hop.now }
{
    octets::u8_at(hop, HopFieldLayout::FLAGS) & HopFieldLayout::CONS_INGRESS_ROUTER_ALERT != 0
}

#[tactic(auto, unfolding(crate::specs::Fields::exp_time))]
pub fn exp_time(hop: &[u8]) -> u8
    ensures { result ≡ exp_time hop.now }
{
    octets::u8_at(hop, HopFieldLayout::EXP_TIME)
}

#[tactic(auto, unfolding(crate::specs::Fields::cons_ingress))]
pub fn cons_ingress(hop: &[u8]) -> u16
    ensures { result ≡ cons_ingress hop.now }
{
    octets::u16_at(hop, HopFieldLayout::CONS_INGRESS)
}

#[tactic(auto, unfolding(crate::specs::Fields::cons_egress))]
pub fn cons_egress(hop: &[u8]) -> u16
    ensures { result ≡ cons_egress hop.now }
{
    octets::u16_at(hop, HopFieldLayout::CONS_EGRESS)
}

#[tactic(auto, unfolding(crate::specs::Fields::mac_field))]
pub fn mac(hop: &[u8]) -> [u8; HopFieldLayout::MAC_SIZE_BYTES]
    ensures { result ≡ mac_field hop.now }
{
    std::array::from_fn(|i| octets::byte_at(hop, usize::from(HopFieldLayout::MAC) + i))
}

// ---- a hop field in travel direction. The hop field and its info field are two parts of the path, handed on as 01 has it

// The first of two with C set, else the second.
fn by_direction<T: Copy>(info: &[u8], along: T, against: T) -> T
    ensures { result ≡ by_direction (cons_dir info.now) along against }
{
    if cons_dir(info) { along } else { against }
}

#[tactic(auto, unfolding(crate::specs::Fields::travel_ingress))]
pub fn ingress_interface(hop: &[u8], info: &[u8]) -> u16
    ensures { result ≡ travel_ingress (cons_dir info.now) hop.now }
{
    by_direction(info, cons_ingress(hop), cons_egress(hop))
}

#[tactic(auto, unfolding(crate::specs::Fields::travel_egress))]
pub fn egress_interface(hop: &[u8], info: &[u8]) -> u16
    ensures { result ≡ travel_egress (cons_dir info.now) hop.now }
{
    by_direction(info, cons_egress(hop), cons_ingress(hop))
}

#[tactic(auto, unfolding(crate::specs::Fields::travel_ingress_alert))]
pub fn ingress_scmp_alert(hop: &[u8], info: &[u8]) -> bool
    ensures { result ≡ travel_ingress_alert (cons_dir info.now) hop.now }
{
    by_direction(
        info,
        cons_ingress_router_alert(hop),
        cons_egress_router_alert(hop),
    )
}

#[tactic(auto, unfolding(crate::specs::Fields::travel_egress_alert))]
pub fn egress_scmp_alert(hop: &[u8], info: &[u8]) -> bool
    ensures { result ≡ travel_egress_alert (cons_dir info.now) hop.now }
{
    by_direction(
        info,
        cons_egress_router_alert(hop),
        cons_ingress_router_alert(hop),
    )
}

// The second in which a hop field ends, capped at the largest number of 32 bits.
#[tactic(auto, unfolding(crate::specs::Fields::expiry))]
pub fn expiry(start: u32, units: u8) -> u32
    ensures { result ≡ expiry start units }
{
    start.saturating_add((u32::from(units) + 1) * 675 / 2)
}

pub fn expiry_timestamp(hop: &[u8], info: &[u8]) -> u32
    ensures { result ≡ expiry (timestamp info.now) (exp_time hop.now) }
{
    expiry(timestamp(info), exp_time(hop))
}
