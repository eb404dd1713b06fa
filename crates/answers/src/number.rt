// The number of an answer, and the values that it carries, for whoever has to write them down: 01's for a refusal.
ghost use Rattle.std.specs.Prelude.{◌≡◌, take};
ghost use Rattle.answers.specs.Answer.{advance_number, refusal_number, values_of, advance_values, refusal_values};
ghost use Rattle.answers.specs.Answer.{local_number, action_number, local_values, action_values};

use crate::{AdvanceError, AsRoutingAction, LocalAsRoutingAction, StandardRoutingError};
use standard_path::view;

// ---- the number: one of several views of an answer, so a function and no `From`

fn advance_number(why: AdvanceError) -> u8
    ensures { result ≡ advance_number why }
{
    match why {
        AdvanceError::HopOutOfBounds(_) => 5,
        AdvanceError::SingleHopSegment => 6,
        AdvanceError::InvalidSegmentIndex { .. } => 7,
        AdvanceError::InfoOutOfBounds(_) => 8,
        AdvanceError::SegmentEnd => 18,
        AdvanceError::MisplacedPeering => 28,
    }
}

pub fn refusal_number(why: StandardRoutingError) -> u8
    ensures { result ≡ refusal_number why }
{
    match why {
        StandardRoutingError::UnsoundTable => 1,
        StandardRoutingError::HeaderFailed(error) => view::header_number(error),
        StandardRoutingError::AdvanceFailed(why) => advance_number(why),
        StandardRoutingError::InvalidIngressInterface { .. } => 9,
        StandardRoutingError::FutureTimestamp { .. } => 10,
        StandardRoutingError::SegmentExpired { .. } => 11,
        StandardRoutingError::InvalidMacError { .. } => 12,
        StandardRoutingError::InvalidScmpAlert { .. } => 13,
        StandardRoutingError::UnknownIngressInterface { .. } => 14,
        StandardRoutingError::UnknownEgressInterface { .. } => 15,
        StandardRoutingError::InvalidSegmentChange { .. } => 16,
        StandardRoutingError::EgressInterfaceDown { .. } => 17,
        StandardRoutingError::InvalidEgressInterface { .. } => 19,
    }
}

// ---- the values

// The values of an answer, in 01's order, and 0 in the places behind the last. `Reply` hands both on to C, which has no slices.
#[derive(Clone, Copy)]
pub struct Values {
    pub count: u8,
    pub places: [u64; 4],
}

impl Values {
    // Of more than four, the first four.
    pub fn of(values: &[u64]) -> Values
        ensures { result ≡ values_of (take 4 values.now) }
    {
        Values {
            // By `as`: it is 4 at most, and a `try_from` would have an error that never comes.
            count: values.len().min(4) as u8,
            places: std::array::from_fn(|i| values.get(i).copied().unwrap_or(0)),
        }
    }
}

fn advance_values(why: AdvanceError) -> Values
    ensures { result ≡ values_of (advance_values why) }
{
    match why {
        AdvanceError::HopOutOfBounds(index) | AdvanceError::InfoOutOfBounds(index) => {
            Values::of(&[u64::from(index)])
        }
        AdvanceError::InvalidSegmentIndex { expected, actual } => {
            Values::of(&[u64::from(expected), u64::from(actual)])
        }
        AdvanceError::SingleHopSegment
        | AdvanceError::SegmentEnd
        | AdvanceError::MisplacedPeering => Values::of(&[]),
    }
}

pub fn refusal_values(why: StandardRoutingError) -> Values
    ensures { result ≡ values_of (refusal_values why) }
{
    match why {
        StandardRoutingError::UnsoundTable | StandardRoutingError::HeaderFailed(_) => {
            Values::of(&[])
        }
        StandardRoutingError::AdvanceFailed(why) => advance_values(why),
        StandardRoutingError::InvalidIngressInterface {
            hop_index,
            expected,
            found,
            cons_dir,
        }
        | StandardRoutingError::InvalidEgressInterface {
            hop_index,
            expected,
            found,
            cons_dir,
        } => Values::of(&[
            u64::from(hop_index),
            u64::from(expected),
            u64::from(found),
            u64::from(cons_dir),
        ]),
        StandardRoutingError::FutureTimestamp { hop_index }
        | StandardRoutingError::SegmentExpired { hop_index }
        | StandardRoutingError::InvalidSegmentChange { hop_index } => {
            Values::of(&[u64::from(hop_index)])
        }
        StandardRoutingError::InvalidMacError {
            hop_index,
            expected,
            actual,
        } => Values::of(&[u64::from(hop_index), expected, actual]),
        StandardRoutingError::InvalidScmpAlert {
            hop_index,
            cons_dir,
        } => Values::of(&[u64::from(hop_index), u64::from(cons_dir)]),
        StandardRoutingError::UnknownIngressInterface {
            hop_index,
            if_id,
            cons_dir,
        }
        | StandardRoutingError::UnknownEgressInterface {
            hop_index,
            if_id,
            cons_dir,
        } => Values::of(&[u64::from(hop_index), u64::from(if_id), u64::from(cons_dir)]),
        StandardRoutingError::EgressInterfaceDown { hop_index, if_id } => {
            Values::of(&[u64::from(hop_index), u64::from(if_id)])
        }
    }
}

// ---- what is done with a packet. Here too a number is one of several views, so a function and no `From`

fn local_number(action: LocalAsRoutingAction) -> u8
    ensures { result ≡ local_number action }
{
    match action {
        LocalAsRoutingAction::ForwardLocal => 102,
        LocalAsRoutingAction::IngressSCMPHandleRequest { .. } => 103,
        LocalAsRoutingAction::EgressSCMPHandleRequest { .. } => 104,
    }
}

pub fn action_number(action: AsRoutingAction) -> u8
    ensures { result ≡ action_number action }
{
    match action {
        AsRoutingAction::ForwardNextHop { .. } => 101,
        AsRoutingAction::Local(action) => local_number(action),
    }
}

fn local_values(action: LocalAsRoutingAction) -> Values
    ensures { result ≡ values_of (local_values action) }
{
    match action {
        LocalAsRoutingAction::ForwardLocal => Values::of(&[]),
        LocalAsRoutingAction::IngressSCMPHandleRequest { interface_id }
        | LocalAsRoutingAction::EgressSCMPHandleRequest { interface_id } => {
            Values::of(&[u64::from(interface_id)])
        }
    }
}

pub fn action_values(action: AsRoutingAction) -> Values
    ensures { result ≡ values_of (action_values action) }
{
    match action {
        AsRoutingAction::ForwardNextHop {
            egress_interface_id,
        } => Values::of(&[u64::from(egress_interface_id)]),
        AsRoutingAction::Local(action) => local_values(action),
    }
}
