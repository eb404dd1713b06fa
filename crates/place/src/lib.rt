// Questions 1 to 8, 18 and 28: whether the step can start, and where the path stands.
//
// Ported from `advance_ingress_with_validator` and `advance_egress_with_validator` in
// crates/libs/sciparse/src/proto/dataplane_path/standard/routing.rs of Anapaya/scion-sdk at commit 866faf5ba3, and changed:
// rewritten in Rattle, with contracts; the questions are asked before anything else is done.
// Copyright 2026 Anapaya Systems
// Licensed under the Apache License, Version 2.0: see NOTICE.
#![tactic(auto)]

ghost use Rattle.std.specs.Prelude.{◌≡◌, Ok, Err};
ghost use Rattle.questions.specs.Questions.{asks};
ghost use Rattle.answers.specs.Questions.{first_no};
ghost use Rattle.edition.specs.Edition.{peering_questions};
ghost use Rattle.place.specs.Place.{before, next_hop, next_info, ingress_place, egress_place, crosses, is_final, is_peering_hop};
ghost use Rattle.place.specs.Inner.{stands, info_questions, egress_place_by};

use answers::{AdvanceError, StandardRoutingError, Validation};
use edition::Edition;
use interface_table::InterfaceTable;
use standard_path::view;
use standard_path::view::SegmentIndex;

// Where the path stands: whether its hop makes a segment change, and whether it is the path's last.
#[derive(Clone, Copy)]
pub struct Place {
    pub change: bool,
    pub last: bool,
}

// Questions 1 to 4. Inlined, since what it finds of the path's length spares the readers after it their tests: a step with MACs ignored
// took 972 instructions in place of 1,122 (callgrind).
#[inline]
#[tactic(auto, unfolding(questions::specs::Questions::asks, standard_path::specs::Header::header_check))]
pub fn check_before(interfaces: InterfaceTable<'_>, path: &[u8]) -> Validation
    ensures { result ≡ first_no (before interfaces.entry.ids.now interfaces.entry.states.now path.now) }
{
    if !interfaces.is_sound() {
        return Err(StandardRoutingError::UnsoundTable);
    }
    view::check_header(path)?;
    Ok(())
}

fn is_final(path: &[u8]) -> bool
    ensures { result ≡ is_final path.now }
{
    view::hop_field_count(path) <= view::curr_hop_field_idx(path) + 1
}

pub fn is_peering_hop(edition: Edition, path: &[u8]) -> bool
    ensures { result ≡ is_peering_hop edition path.now }
{
    edition::is_peering_hop(edition, path, view::curr_hop_field_idx(path))
}

// The first of the two peering hops: the path goes on in the next segment, over the peering link.
pub fn crosses(edition: Edition, path: &[u8]) -> bool
    ensures { result ≡ crosses edition path.now }
{
    edition::is_first_peering_hop(edition, path, view::curr_hop_field_idx(path))
}

// The hop field after the current one, and the info field after the current one.
pub fn next_hop_field(path: &[u8]) -> &[u8]
    ensures { result.now ≡ next_hop path.now }
{
    view::hop_field(path, view::curr_hop_field_idx(path) + 1)
}

pub fn next_info_field(path: &[u8]) -> &[u8]
    ensures { result.now ≡ next_info path.now }
{
    view::info_field(path, view::curr_info_field_idx(path) + 1)
}

// Question 28, and then where the path stands.
#[tactic(auto, unfolding(questions::specs::Questions::asks))]
fn placed(edition: Edition, path: &[u8], place: Place) -> Result<Place, StandardRoutingError>
    ensures { result ≡ asks Err (peering_questions edition path.now) (Ok place) }
{
    if !edition::peering_fits(edition, path) {
        return Err(AdvanceError::MisplacedPeering.into());
    }
    Ok(place)
}

// Question 7, and 8 for the current info field. Question 5 stays with each half: at ingress 6 comes between 5 and 7.
#[tactic(auto, unfolding(questions::specs::Questions::asks))]
fn check_info_index(expected: u8, actual: u8, infos: u8) -> Validation
    ensures { result ≡ first_no (info_questions expected actual infos) }
{
    if expected != actual {
        return Err(AdvanceError::InvalidSegmentIndex { expected, actual }.into());
    }
    if infos <= actual {
        return Err(AdvanceError::InfoOutOfBounds(actual).into());
    }
    Ok(())
}

// Questions 5 to 8, and 28.
#[tactic(auto, unfolding(questions::specs::Questions::asks, standard_path::specs::Header::hops, // and what the segment index is
standard_path::specs::Header::segment_index, standard_path::specs::Header::segment_among))]
pub fn locate_ingress(edition: Edition, path: &[u8]) -> Result<Place, StandardRoutingError>
    ensures { result ≡ asks Err (ingress_place edition path.now) (Ok (stands edition path.now)) }
{
    let peers = edition::is_peering_path(edition, path);
    let peer = is_peering_hop(edition, path);
    let hop = view::curr_hop_field_idx(path);
    let SegmentIndex { index, start, end } = view::calculate_segment_index(path, hop).ok_or(
        AdvanceError::HopOutOfBounds(hop),
    )?;
    if !peers && start && end {
        return Err(AdvanceError::SingleHopSegment.into());
    }
    let infos = view::info_field_count(path);
    check_info_index(index, view::curr_info_field_idx(path), infos)?;
    let last = is_final(path);
    let change = !peer && end && !last;
    if change && infos <= index + 1 {
        return Err(AdvanceError::InfoOutOfBounds(index + 1).into());
    }
    placed(edition, path, Place { change, last })
}

// Questions 5, 7, 8, 28, 5 for the next hop, and 18. Lent what an edition makes of the path, so that this function and its contract know no
// edition: `fits` is 28's answer, and `crossing` says whether the hop is the first peering hop.
#[tactic(auto, unfolding(questions::specs::Questions::asks, standard_path::specs::Header::hops, // and what the segment index is
standard_path::specs::Header::segment_index, standard_path::specs::Header::segment_among))]
pub fn locate_egress(path: &[u8], fits: bool, crossing: bool) -> Validation
    ensures { result ≡ first_no (egress_place_by path.now fits crossing) }
{
    let hop = view::curr_hop_field_idx(path);
    let infos = view::info_field_count(path);
    let hops = view::hop_field_count(path);
    let SegmentIndex { index, end, .. } = view::calculate_segment_index(path, hop).ok_or(
        AdvanceError::HopOutOfBounds(hop),
    )?;
    check_info_index(index, view::curr_info_field_idx(path), infos)?;
    if !fits {
        return Err(AdvanceError::MisplacedPeering.into());
    }
    if hops <= hop + 1 {
        return Err(AdvanceError::HopOutOfBounds(hop + 1).into());
    }
    if end && !crossing {
        return Err(AdvanceError::SegmentEnd.into());
    }
    Ok(())
}

// The same, with the edition asked for both. Inlined: called, it took 102 instructions, and `locate_egress` alone takes 73 (callgrind).
#[inline(always)]
#[tactic(auto, using(crate::proofs::Places::placed_by))]
pub fn check_egress_place(edition: Edition, path: &[u8]) -> Validation
    ensures { result ≡ first_no (egress_place edition path.now) }
{
    let fits = edition::peering_fits(edition, path);
    let crossing = crosses(edition, path);
    locate_egress(path, fits, crossing)
}
