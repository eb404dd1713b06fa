// What the step answers; the number and the values of each answer are in `number`, its SCMP error in the crate `scmp`.
//
// Ported from crates/pocketscion/src/network/scion/routing.rs and routing/spec/standard.rs, and from
// crates/libs/sciparse/src/proto/dataplane_path/standard/routing.rs, of Anapaya/scion-sdk at commit 866faf5ba3, and changed:
// rewritten in Rattle; numbers for texts; the cases that the step never gives are left out.
// Copyright 2025 Anapaya Systems
// Copyright 2026 Anapaya Systems
// Licensed under the Apache License, Version 2.0: see NOTICE.
#![tactic(auto)]

pub mod number;

ghost use Rattle.std.specs.Prelude.{◌≡◌};
ghost use Rattle.answers.specs.declared.StandardRoutingError.TheVariants.{HeaderFailed, AdvanceFailed};

use standard_path::view::HeaderError;

#[derive(Clone, Copy)]
pub enum LocalAsRoutingAction {
    IngressSCMPHandleRequest { interface_id: u16 },
    EgressSCMPHandleRequest { interface_id: u16 },
    ForwardLocal,
}

#[derive(Clone, Copy)]
pub enum AsRoutingAction {
    Local(LocalAsRoutingAction),
    ForwardNextHop { egress_interface_id: u16 },
}

// Why a path cannot be advanced.
#[derive(Clone, Copy)]
pub enum AdvanceError {
    HopOutOfBounds(u8),
    InfoOutOfBounds(u8),
    InvalidSegmentIndex { expected: u8, actual: u8 },
    // The Rust's InvalidPathState, with its two texts.
    SingleHopSegment,
    SegmentEnd,
    // F-6, second edition: P is set on a path that is no peering path.
    MisplacedPeering,
}

// A MAC is a number of 48 bits, since the values of an answer are told as numbers.
#[derive(Clone, Copy)]
pub enum StandardRoutingError {
    UnsoundTable,
    HeaderFailed(HeaderError),
    AdvanceFailed(AdvanceError),
    InvalidIngressInterface {
        hop_index: u8,
        expected: u16,
        found: u16,
        cons_dir: bool,
    },
    InvalidEgressInterface {
        hop_index: u8,
        expected: u16,
        found: u16,
        cons_dir: bool,
    },
    FutureTimestamp {
        hop_index: u8,
    },
    SegmentExpired {
        hop_index: u8,
    },
    UnknownIngressInterface {
        hop_index: u8,
        if_id: u16,
        cons_dir: bool,
    },
    UnknownEgressInterface {
        hop_index: u8,
        if_id: u16,
        cons_dir: bool,
    },
    InvalidMacError {
        hop_index: u8,
        expected: u64,
        actual: u64,
    },
    InvalidSegmentChange {
        hop_index: u8,
    },
    EgressInterfaceDown {
        hop_index: u8,
        if_id: u16,
    },
    InvalidScmpAlert {
        hop_index: u8,
        cons_dir: bool,
    },
}

impl From<HeaderError> for StandardRoutingError {
    ghost from_gives = { λ why refusal. refusal ≡ HeaderFailed why };

    fn from(why: HeaderError) -> StandardRoutingError {
        StandardRoutingError::HeaderFailed(why)
    }
}

impl From<AdvanceError> for StandardRoutingError {
    ghost from_gives = { λ why refusal. refusal ≡ AdvanceFailed why };

    fn from(why: AdvanceError) -> StandardRoutingError {
        StandardRoutingError::AdvanceFailed(why)
    }
}

// What the ingress half comes to, if it does not refuse.
#[derive(Clone, Copy)]
pub enum IngressNextAction {
    ContinueEgress { egress_interface_id: u16 },
    Complete(AsRoutingAction),
}

// ---- an answer for each step

pub type IngressAnswer = Result<IngressNextAction, StandardRoutingError>;

// Of the egress half and of the whole step.
pub type StepAnswer = Result<AsRoutingAction, StandardRoutingError>;

// What a list of questions comes to: each was answered yes, or the refusal of the first no.
pub type Validation = Result<(), StandardRoutingError>;
