// The SCMP error that a refusal is answered with.
//
// Ported from `StandardRoutingError::to_scmp_error` in crates/pocketscion/src/network/scion/routing/spec/standard.rs of Anapaya/scion-sdk
// at commit 866faf5ba3, and changed: rewritten in Rattle, with contracts; type, code and pointer or interface, without the message.
// Copyright 2025 Anapaya Systems
// Licensed under the Apache License, Version 2.0: see NOTICE.
#![tactic(auto)]

ghost use Rattle.std.specs.Prelude.{◌≡◌};
ghost use Rattle.scmp.specs.Scmp.{code_number, interface_code, to_scmp_error};

use answers::StandardRoutingError;

#[derive(Clone, Copy)]
pub enum ScmpParameterProblemCode {
    ErroneousHeaderField,
    InvalidPath,
    UnknownHopFieldConsIngressInterface,
    UnknownHopFieldConsEgressInterface,
    InvalidHopFieldMac,
    PathExpired,
    InvalidSegmentChange,
}

impl From<ScmpParameterProblemCode> for u8 {
    ghost from_gives = { λ code number. number ≡ code_number code };

    fn from(code: ScmpParameterProblemCode) -> u8 {
        match code {
            ScmpParameterProblemCode::ErroneousHeaderField => 0,
            ScmpParameterProblemCode::InvalidPath => 48,
            ScmpParameterProblemCode::UnknownHopFieldConsIngressInterface => 49,
            ScmpParameterProblemCode::UnknownHopFieldConsEgressInterface => 50,
            ScmpParameterProblemCode::InvalidHopFieldMac => 51,
            ScmpParameterProblemCode::PathExpired => 52,
            ScmpParameterProblemCode::InvalidSegmentChange => 53,
        }
    }
}

#[derive(Clone, Copy)]
pub enum ScmpError {
    ParameterProblem {
        code: ScmpParameterProblemCode,
        pointer: u32,
    },
    ExternalInterfaceDown {
        interface_id: u16,
    },
}

// The hop field names the interface as its ConsIngress or as its ConsEgress.
fn interface_code(is_cons_ingress: bool) -> ScmpParameterProblemCode
    ensures { result ≡ interface_code is_cons_ingress }
{
    if is_cons_ingress {
        ScmpParameterProblemCode::UnknownHopFieldConsIngressInterface
    } else {
        ScmpParameterProblemCode::UnknownHopFieldConsEgressInterface
    }
}

// None for a malformed path or an unsound table: there is no one to answer.
#[tactic(auto, unfolding(crate::specs::Scmp::to_scmp_error))]
pub fn to_scmp_error(why: StandardRoutingError) -> Option<ScmpError>
    ensures { result ≡ to_scmp_error why }
{
    let code = match why {
        StandardRoutingError::UnsoundTable
        | StandardRoutingError::HeaderFailed(_)
        | StandardRoutingError::AdvanceFailed(_) => return None,
        StandardRoutingError::EgressInterfaceDown { if_id, .. } => {
            return Some(ScmpError::ExternalInterfaceDown {
                interface_id: if_id,
            });
        }
        StandardRoutingError::InvalidIngressInterface { cons_dir, .. }
        | StandardRoutingError::UnknownIngressInterface { cons_dir, .. } => interface_code(
            cons_dir,
        ),
        StandardRoutingError::InvalidEgressInterface { cons_dir, .. }
        | StandardRoutingError::UnknownEgressInterface { cons_dir, .. } => interface_code(
            !cons_dir,
        ),
        StandardRoutingError::FutureTimestamp { .. } => ScmpParameterProblemCode::InvalidPath,
        StandardRoutingError::SegmentExpired { .. } => ScmpParameterProblemCode::PathExpired,
        StandardRoutingError::InvalidMacError { .. } =>
            ScmpParameterProblemCode::InvalidHopFieldMac,
        StandardRoutingError::InvalidSegmentChange { .. } => {
            ScmpParameterProblemCode::InvalidSegmentChange
        }
        StandardRoutingError::InvalidScmpAlert { .. } => {
            ScmpParameterProblemCode::ErroneousHeaderField
        }
    };
    Some(ScmpError::ParameterProblem { code, pointer: 0 })
}
