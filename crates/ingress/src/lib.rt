// The ingress half of the step.
//
// Ported from `advance_ingress_with_validator` in crates/libs/sciparse/src/proto/dataplane_path/standard/routing.rs and
// `standard_path_ingress` in crates/pocketscion/src/network/scion/routing/spec/standard.rs of Anapaya/scion-sdk at commit
// 866faf5ba3, and changed: rewritten in Rattle, with contracts; all reads come before the first write.
// Copyright 2025 Anapaya Systems
// Copyright 2026 Anapaya Systems
// Licensed under the Apache License, Version 2.0: see NOTICE.
#![tactic(auto)]

ghost use Rattle.std.specs.Prelude.{◌≡◌, Ok, Err};
ghost use Rattle.questions.specs.Questions.{asks};
ghost use Rattle.validator.specs.Check.{key_mac};
ghost use Rattle.moves.specs.Moves.{ingress_move};
ghost use Rattle.checks.specs.Checks.{ingress_questions};
ghost use Rattle.ingress.specs.Ingress.{alerts_at_ingress, leaving, ingress_action, ingress};

use answers::{AsRoutingAction, IngressAnswer, IngressNextAction, LocalAsRoutingAction};
use edition::Edition;
use hop_mac::ForwardingKey;
use interface_table::InterfaceTable;
use moves::CurrentHop;
use place::Place;
use standard_path::view;
use validator::StandardValidator;

fn alerts_at_ingress(path: &[u8], interface: u16) -> bool
    ensures { result ≡ alerts_at_ingress path.now interface }
{
    let hop = view::curr_hop_field(path);
    let info = view::curr_info_field(path);
    fields::ingress_scmp_alert(hop, info)
        && interface != 0
        && fields::ingress_interface(hop, info) == interface
}

fn leaving_interface(path: &[u8], change: bool) -> u16
    ensures { result ≡ leaving path.now change }
{
    if change {
        return fields::egress_interface(place::next_hop_field(path), place::next_info_field(path));
    }
    fields::egress_interface(view::curr_hop_field(path), view::curr_info_field(path))
}

// What is done with the packet, once every check has passed.
#[tactic(auto, unfolding(crate::specs::Ingress::ingress_action))]
fn ingress_action(path: &[u8], interface: u16, place: Place) -> IngressNextAction
    ensures { result ≡ ingress_action path.now interface place.change place.last }
{
    if alerts_at_ingress(path, interface) {
        let local = LocalAsRoutingAction::IngressSCMPHandleRequest {
            interface_id: interface,
        };
        return IngressNextAction::Complete(AsRoutingAction::Local(local));
    }
    if place.last {
        return IngressNextAction::Complete(AsRoutingAction::Local(
            LocalAsRoutingAction::ForwardLocal,
        ));
    }
    IngressNextAction::ContinueEgress {
        egress_interface_id: leaving_interface(path, place.change),
    }
}

// ---- the half. Edition, table, key and `at` are no struct: it would be taken apart for the checks and for the move, which depends on no
// table and no key, and its signature says so

// The answer, from the path as it came.
#[tactic(auto, using(place::proofs::Places::asked_no, place::proofs::Places::asked_yes))]
fn decide_ingress(
    edition: Edition,
    interfaces: InterfaceTable<'_>,
    forwarding_key: &ForwardingKey,
    at: StandardValidator,
    path: &[u8],
    place: Place,
) -> IngressAnswer
    ensures { result ≡ asks Err
        (ingress_questions edition interfaces.entry.ids.now interfaces.entry.states.now
        (key_mac forwarding_key.now) at path.now place.change)
        (Ok (ingress_action path.now at.current_interface_id place.change place.last)) }
{
    let action = ingress_action(path, at.current_interface_id, place);
    checks::validate_ingress(edition, interfaces, forwarding_key, at, path, place.change)?;
    Ok(action)
}

#[tactic(auto, using(moves::proofs::Lent::ingress_move_lent))]
fn ingress_here(
    edition: Edition,
    interfaces: InterfaceTable<'_>,
    forwarding_key: &ForwardingKey,
    at: StandardValidator,
    path: &mut [u8],
    place: Place,
) -> IngressAnswer
    ensures value { result ≡ asks Err
        (ingress_questions edition interfaces.entry.ids.now interfaces.entry.states.now
        (key_mac forwarding_key.now) at path.old place.change)
        (Ok (ingress_action path.old at.current_interface_id place.change place.last)) }
    ensures path_after { path.new ≡ ingress_move edition path.old at.current_interface_id place.change }
{
    let current = CurrentHop::of(path);
    let answer = decide_ingress(edition, interfaces, forwarding_key, at, path, place);
    moves::move_ingress(
        edition,
        path,
        at.current_interface_id,
        place.change,
        current,
    );
    answer
}

// The ingress half, with a validator.
pub fn advance_ingress_with_validator(
    edition: Edition,
    interfaces: InterfaceTable<'_>,
    forwarding_key: &ForwardingKey,
    at: StandardValidator,
    path: &mut [u8],
) -> IngressAnswer
    ensures value { result ≡ (ingress edition interfaces.entry.ids.now interfaces.entry.states.now
        (key_mac forwarding_key.now) at path.old).answer }
    ensures path_after { path.new ≡ (ingress edition interfaces.entry.ids.now interfaces.entry.states.now
        (key_mac forwarding_key.now) at path.old).bytes }
{
    place::check_before(interfaces, path)?;
    let place = place::locate_ingress(edition, path)?;
    ingress_here(edition, interfaces, forwarding_key, at, path, place)
}
