// The checks of a segment change.
//
// Ported from `StandardValidator` in crates/pocketscion/src/network/scion/routing/spec/standard.rs of Anapaya/scion-sdk at commit
// 866faf5ba3, and changed: rewritten in Rattle, with contracts; one fixed set of checks in place of a trait.
// Copyright 2025 Anapaya Systems
// Licensed under the Apache License, Version 2.0: see NOTICE.
#![tactic(auto)]

ghost use Rattle.std.specs.Prelude.{◌≡◌};
ghost use Rattle.answers.specs.Questions.{first_no};
ghost use Rattle.validator.specs.Check.{link_questions, change_questions};

use answers::{StandardRoutingError, Validation};
use interface_table::InterfaceTable;

// Here and below the fields are parts of the path, handed on as they are, and beside them the hop's index, which only a refusal names: a
// struct of them would be filled for one call, and taken apart for each reader of a field.

// Questions 14 to 16 of what the table has for the two interfaces.
#[tactic(auto, unfolding(questions::specs::Questions::asks))]
fn validate_links(
    listed_in: Option<u8>,
    listed_out: Option<u8>,
    hop_index: u8,
    hop: &[u8],
    info: &[u8],
    next_hop: &[u8],
    next_info: &[u8],
) -> Validation
    ensures { result ≡ first_no (link_questions listed_in listed_out hop_index
        hop.now info.now next_hop.now next_info.now) }
{
    let in_state = listed_in.ok_or(StandardRoutingError::UnknownIngressInterface {
        hop_index,
        if_id: fields::ingress_interface(hop, info),
        cons_dir: fields::cons_dir(info),
    })?;
    let out_state = listed_out.ok_or(StandardRoutingError::UnknownEgressInterface {
        hop_index,
        if_id: fields::egress_interface(next_hop, next_info),
        cons_dir: fields::cons_dir(next_info),
    })?;
    let in_link = interface_table::link_type(in_state);
    let out_link = interface_table::link_type(out_state);
    if !interface_table::is_allowed_link_pair(in_link, out_link) {
        return Err(StandardRoutingError::InvalidSegmentChange { hop_index });
    }
    Ok(())
}

// Questions 13 to 16.
#[tactic(auto, unfolding(questions::specs::Questions::asks))]
pub fn validate_segment_change(
    interfaces: InterfaceTable<'_>,
    hop_index: u8,
    hop: &[u8],
    info: &[u8],
    next_hop: &[u8],
    next_info: &[u8],
) -> Validation
    ensures { result ≡ first_no (change_questions interfaces.entry.ids.now interfaces.entry.states.now hop_index
        hop.now info.now next_hop.now next_info.now) }
{
    if fields::egress_scmp_alert(hop, info) {
        let cons_dir = fields::cons_dir(info);
        return Err(StandardRoutingError::InvalidScmpAlert {
            hop_index,
            cons_dir,
        });
    }
    if fields::ingress_scmp_alert(next_hop, next_info) {
        let cons_dir = fields::cons_dir(next_info);
        return Err(StandardRoutingError::InvalidScmpAlert {
            hop_index,
            cons_dir,
        });
    }
    let listed_in = interfaces.lookup(fields::ingress_interface(hop, info));
    let listed_out = interfaces.lookup(fields::egress_interface(next_hop, next_info));
    validate_links(
        listed_in, listed_out, hop_index, hop, info, next_hop, next_info,
    )
}
