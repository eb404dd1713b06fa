// What the moves of the step write, on all inputs: a store past the end does nothing.
//
// Ported from `advance_ingress_with_validator` and `advance_egress_with_validator` in
// crates/libs/sciparse/src/proto/dataplane_path/standard/routing.rs and from view.rs beside it, of Anapaya/scion-sdk at commit
// 866faf5ba3, and changed: rewritten in Rattle, with contracts.
// Copyright 2026 Anapaya Systems
// Licensed under the Apache License, Version 2.0: see NOTICE.
#![tactic(auto)]

ghost use Rattle.std.specs.Prelude.{◌≡◌, not};
ghost use Rattle.fields.specs.Fields.{by_direction};
ghost use Rattle.writes.specs.Writes.{set_seg_id, without_egress, without_ingress, alert_cleared_at};

use fields::layout::{HopFieldLayout, InfoFieldLayout};

// The SegID of the info field with this index.
#[tactic(auto, unfolding(crate::specs::Writes::set_seg_id))]
pub fn set_segment_id(path: &mut [u8], index: u8, value: u16)
    ensures { path.new ≡ set_seg_id path.old index value }
{
    let at = InfoFieldLayout::offset(index);
    let high = usize::from(InfoFieldLayout::SEGMENT_ID);
    let [first, second] = value.to_be_bytes();
    octets::put_byte(path, at + high, first);
    octets::put_byte(path, at + (high + 1), second);
}

// The flags without the ConsIngress alert, or without the ConsEgress alert. `ingress` is a flag: it is
// the flag C of a segment, or its opposite.
fn without_alert(flags: u8, ingress: bool) -> u8
    ensures { result ≡ by_direction ingress (without_ingress flags) (without_egress flags) }
{
    if ingress {
        flags & !HopFieldLayout::CONS_INGRESS_ROUTER_ALERT
    } else {
        flags & !HopFieldLayout::CONS_EGRESS_ROUTER_ALERT
    }
}

// The travel-ingress alert of the hop field that starts at a place, and its travel-egress alert.
pub fn clear_ingress_alert(path: &mut [u8], at: usize, cons_dir: bool)
    ensures { path.new ≡ alert_cleared_at path.old at cons_dir }
{
    let flags = octets::byte_at(path, at);
    octets::put_byte(path, at, without_alert(flags, cons_dir));
}

// Which alert it is turns round with the direction.
pub fn clear_egress_alert(path: &mut [u8], at: usize, cons_dir: bool)
    ensures { path.new ≡ alert_cleared_at path.old at (not cons_dir) }
{
    clear_ingress_alert(path, at, !cons_dir);
}
