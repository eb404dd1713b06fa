// How each half of the step moves the path, on all inputs. What a move needs of the header is read before the checks, where it is at hand.
//
// Ported from `advance_ingress_with_validator` and `advance_egress_with_validator` in
// crates/libs/sciparse/src/proto/dataplane_path/standard/routing.rs and from view.rs beside it, of Anapaya/scion-sdk at commit
// 866faf5ba3, and changed: rewritten in Rattle, with contracts; all reads come before the first write.
// Copyright 2026 Anapaya Systems
// Licensed under the Apache License, Version 2.0: see NOTICE.
#![tactic(auto)]

ghost use Rattle.std.specs.Prelude.{◌≡◌, not, cond};
ghost use Rattle.hop_mac.specs.Mac.{mac_beta_step};
ghost use Rattle.fields.specs.Fields.{cons_dir, seg_id, mac_field};
ghost use Rattle.standard_path.specs.Meta.{curr_hf};
ghost use Rattle.place.specs.Place.{info};
ghost use Rattle.writes.specs.Writes.{flags_at};
ghost use Rattle.moves.specs.Moves.{takes_step, ingress_seg_id};
ghost use Rattle.moves.specs.Inner.{stepped_at, fields_at, ingress_move_at, indices_at, egress_move_at};

use edition::Edition;
use hop_mac::mac_beta_step;
use standard_path::view;

// What a move needs of the header: where the current hop field starts, and the direction of its segment.
#[derive(Clone, Copy)]
pub struct CurrentHop {
    pub at: usize,
    pub cons_dir: bool,
}

impl CurrentHop {
    pub fn of(path: &[u8]) -> CurrentHop
        ensures at { result.at ≡ flags_at path.now (curr_hf path.now) }
        ensures cons_dir { result.cons_dir ≡ cons_dir (info path.now) }
    {
        CurrentHop {
            at: view::hop_field_offset(path, view::curr_hop_field_idx(path)),
            cons_dir: fields::cons_dir(view::curr_info_field(path)),
        }
    }
}

// ---- the beta step

// The SegID after a beta step of a hop. The parts of the path are handed on to field readers, as 01 has it.
fn stepped_segment_id(hop: &[u8], info: &[u8]) -> u16
    ensures { result ≡ mac_beta_step (seg_id info.now) (mac_field hop.now) }
{
    mac_beta_step(fields::segment_id(info), fields::mac(hop))
}

// Here and below `at_ingress` is a flag: 01 has one rule for the beta step, told whether it works at ingress or at egress.
fn is_stepped_direction(at_ingress: bool, cons_dir: bool) -> bool
    ensures { result ≡ cond at_ingress (not cons_dir) cons_dir }
{
    if at_ingress { !cons_dir } else { cons_dir }
}

// Whether the current hop takes a beta step, at ingress or at egress, in a segment with this direction.
fn takes_step(edition: Edition, path: &[u8], at_ingress: bool, cons_dir: bool) -> bool
    ensures { result ≡ takes_step edition path.now at_ingress cons_dir }
{
    !place::is_peering_hop(edition, path) && is_stepped_direction(at_ingress, cons_dir)
}

// The SegID that the current hop is checked with at ingress: a packet from outside may take a beta step.
pub fn ingress_segment_id(edition: Edition, path: &[u8], interface: u16) -> u16
    ensures { result ≡ ingress_seg_id edition path.now interface }
{
    let info = view::curr_info_field(path);
    if interface != 0 && takes_step(edition, path, true, fields::cons_dir(info)) {
        return stepped_segment_id(view::curr_hop_field(path), info);
    }
    fields::segment_id(info)
}

// The beta step of the current hop, if it takes one.
#[tactic(auto, unfolding(crate::specs::Inner::stepped_at))]
fn beta_step(path: &mut [u8], hop_at: usize, taken: bool)
    ensures { path.new ≡ stepped_at path.old hop_at taken }
{
    if taken {
        let segment = view::curr_info_field_idx(path);
        let hop = view::hop_field_at(path, hop_at);
        let segment_id = stepped_segment_id(hop, view::curr_info_field(path));
        writes::set_segment_id(path, segment, segment_id);
    }
}

// ---- the moves

#[tactic(auto, unfolding(crate::specs::Inner::fields_at))]
fn move_fields(edition: Edition, path: &mut [u8], interface: u16, current: CurrentHop)
    ensures { path.new ≡ fields_at edition path.old interface current.at current.cons_dir }
{
    if interface == 0 {
        return;
    }
    let taken = takes_step(edition, path, true, current.cons_dir);
    beta_step(path, current.at, taken);
    writes::clear_ingress_alert(path, current.at, current.cons_dir);
}

#[tactic(auto, unfolding(crate::specs::Inner::ingress_move_at))]
pub fn move_ingress(
    edition: Edition,
    path: &mut [u8],
    interface: u16,
    change: bool,
    current: CurrentHop,
)
    ensures { path.new ≡ ingress_move_at edition path.old interface change current.at current.cons_dir }
{
    let next_hop = view::curr_hop_field_idx(path) + 1;
    let next_segment = view::curr_info_field_idx(path) + 1;
    move_fields(edition, path, interface, current);
    if change {
        view::set_curr_hop_field(path, next_hop);
        view::set_curr_info_field(path, next_segment);
    }
}

// CurrHF, and CurrINF where the path crosses into the next segment.
#[tactic(auto, unfolding(crate::specs::Inner::indices_at))]
fn set_indices(path: &mut [u8], hop_index: u8, segment: u8, crossing: bool)
    ensures { path.new ≡ indices_at path.old hop_index segment crossing }
{
    view::set_curr_hop_field(path, hop_index);
    if crossing {
        view::set_curr_info_field(path, segment);
    }
}

#[tactic(auto, unfolding(crate::specs::Inner::egress_move_at))]
pub fn move_egress(edition: Edition, path: &mut [u8], current: CurrentHop)
    ensures { path.new ≡ egress_move_at edition path.old current.at current.cons_dir }
{
    let hop_index = view::curr_hop_field_idx(path);
    let segment = view::curr_info_field_idx(path);
    let crossing = place::crosses(edition, path);
    let taken = takes_step(edition, path, false, current.cons_dir);
    beta_step(path, current.at, taken);
    writes::clear_egress_alert(path, current.at, current.cons_dir);
    set_indices(path, hop_index + 1, segment + 1, crossing);
}
