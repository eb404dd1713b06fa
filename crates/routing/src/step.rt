// The whole step, and each half by itself.
//
// Ported from crates/pocketscion/src/network/scion/routing/spec/standard.rs of Anapaya/scion-sdk at commit 866faf5ba3, and changed:
// rewritten in Rattle, with contracts; the interfaces are a lent table in place of a closure; one key schedule serves all MACs of a
// call; egress inside the whole step asks only where the path stands.
// Copyright 2025 Anapaya Systems
// Licensed under the Apache License, Version 2.0: see NOTICE.
ghost use Rattle.std.specs.Prelude.{◌≡◌, cond, eqb, Ok};
ghost use Rattle.standard_path.specs.Meta.{curr_hf};
ghost use Rattle.answers.specs.Questions.{first_no};
ghost use Rattle.interface_table.specs.Table.{state_of};
ghost use Rattle.place.specs.Place.{egress_place};
ghost use Rattle.ingress.specs.Ingress.{ingress};
ghost use Rattle.egress.specs.Egress.{egress};
ghost use Rattle.validator.specs.Check.{key_mac, at_ingress, at_egress};
ghost use Rattle.routing.specs.Step.{leaving_questions, step};

use answers::{IngressAnswer, IngressNextAction, StandardRoutingError, StepAnswer, Validation};
use edition::Edition;
use hop_mac::ForwardingKey;
use interface_table::InterfaceTable;
use standard_path::view;
use validator::StandardValidator;

// ---- the halves. They and the whole step take the Rust's parameters, and the edition and the table before them

pub fn standard_path_ingress(
    edition: Edition,
    interfaces: InterfaceTable<'_>,
    path: &mut [u8],
    ingress_interface_id: u16,
    time: u32,
    forwarding_key: &ForwardingKey,
    ignore_macs: bool,
) -> IngressAnswer
    ensures value { result ≡ (ingress edition interfaces.entry.ids.now interfaces.entry.states.now
        (key_mac forwarding_key.now) (at_ingress ingress_interface_id time ignore_macs) path.old).answer }
    ensures path_after { path.new ≡ (ingress edition interfaces.entry.ids.now interfaces.entry.states.now
        (key_mac forwarding_key.now) (at_ingress ingress_interface_id time ignore_macs) path.old).bytes }
{
    let at = StandardValidator {
        ingress: true,
        current_interface_id: ingress_interface_id,
        time,
        ignore_macs,
    };
    ingress::advance_ingress_with_validator(edition, interfaces, forwarding_key, at, path)
}

pub fn standard_path_egress(
    edition: Edition,
    interfaces: InterfaceTable<'_>,
    path: &mut [u8],
    egress_if_id: u16,
    time: u32,
    forwarding_key: &ForwardingKey,
    ignore_macs: bool,
) -> StepAnswer
    ensures value { result ≡ (egress edition interfaces.entry.ids.now interfaces.entry.states.now
        (key_mac forwarding_key.now) (at_egress egress_if_id time ignore_macs) path.old).answer }
    ensures path_after { path.new ≡ (egress edition interfaces.entry.ids.now interfaces.entry.states.now
        (key_mac forwarding_key.now) (at_egress egress_if_id time ignore_macs) path.old).bytes }
{
    let at = StandardValidator {
        ingress: false,
        current_interface_id: egress_if_id,
        time,
        ignore_macs,
    };
    egress::advance_egress_with_validator(edition, interfaces, forwarding_key, at, path)
}

// ---- between them

// Questions 15 and 17 of the interface that the packet leaves by.
#[tactic(auto, unfolding(questions::specs::Questions::asks))]
fn validate_leaving(interfaces: InterfaceTable<'_>, out: u16, path: &[u8]) -> Validation
    ensures { result ≡ first_no (leaving_questions
        (state_of interfaces.entry.ids.now interfaces.entry.states.now out) out path.now) }
{
    let hop_index = view::curr_hop_field_idx(path);
    let Some(state) = interfaces.lookup(out) else {
        return Err(StandardRoutingError::UnknownEgressInterface {
            hop_index,
            if_id: out,
            cons_dir: fields::cons_dir(view::curr_info_field(path)),
        });
    };
    if !interface_table::is_up(state) {
        return Err(StandardRoutingError::EgressInterfaceDown {
            hop_index,
            if_id: out,
        });
    }
    Ok(())
}

// Where the path stands at egress. Without a segment change ingress has had a yes to all that would be asked.
fn validate_place(edition: Edition, path: &[u8], hop_index: u8) -> Validation
    ensures { result ≡ cond (eqb (curr_hf path.now) hop_index) (Ok tt) (first_no (egress_place edition path.now)) }
{
    if view::curr_hop_field_idx(path) == hop_index {
        return Ok(());
    }
    place::check_egress_place(edition, path)
}

// ---- the whole step

#[tactic(auto, using(crate::proofs::Steps::steps), unfolding(crate::specs::Step::step, crate::specs::Step::step_from))]
pub fn handle_standard_path(
    edition: Edition,
    interfaces: InterfaceTable<'_>,
    path: &mut [u8],
    ingress_interface_id: u16,
    time: u32,
    as_forwarding_key: &ForwardingKey,
    ignore_macs: bool,
) -> StepAnswer
    ensures value { result ≡ (step edition interfaces.entry.ids.now interfaces.entry.states.now
        (key_mac as_forwarding_key.now) ingress_interface_id time ignore_macs path.old).answer }
    ensures path_after { path.new ≡ (step edition interfaces.entry.ids.now interfaces.entry.states.now
        (key_mac as_forwarding_key.now) ingress_interface_id time ignore_macs path.old).bytes }
{
    let hop_index = view::curr_hop_field_idx(path);
    let next_action = standard_path_ingress(
        edition,
        interfaces,
        path,
        ingress_interface_id,
        time,
        as_forwarding_key,
        ignore_macs,
    )?;
    // A refusal has left by `?`, so what is no way on to egress is an action; `let .. else` takes the egress number out, as 01 has it.
    let IngressNextAction::ContinueEgress {
        egress_interface_id,
    } = next_action
    else {
        let IngressNextAction::Complete(action) = next_action else {
            unreachable!();
        };
        return Ok(action);
    };
    validate_leaving(interfaces, egress_interface_id, path)?;
    validate_place(edition, path, hop_index)?;
    Ok(egress::egress_inside(edition, path))
}
