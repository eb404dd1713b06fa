// The egress half of the step.
//
// Ported from `advance_egress_with_validator` in crates/libs/sciparse/src/proto/dataplane_path/standard/routing.rs and
// `standard_path_egress` in crates/pocketscion/src/network/scion/routing/spec/standard.rs of Anapaya/scion-sdk at commit
// 866faf5ba3, and changed: rewritten in Rattle, with contracts; all reads come before the first write.
// Copyright 2025 Anapaya Systems
// Copyright 2026 Anapaya Systems
// Licensed under the Apache License, Version 2.0: see NOTICE.
#![tactic(auto)]

ghost use Rattle.std.specs.Prelude.{◌≡◌, Ok, Err};
ghost use Rattle.questions.specs.Questions.{asks};
ghost use Rattle.validator.specs.Check.{key_mac};
ghost use Rattle.moves.specs.Moves.{egress_move};
ghost use Rattle.checks.specs.Checks.{egress_questions};
ghost use Rattle.egress.specs.Egress.{leaving_action, egress_action, egress};

use answers::{AsRoutingAction, LocalAsRoutingAction, StepAnswer};
use edition::Edition;
use hop_mac::ForwardingKey;
use interface_table::InterfaceTable;
use moves::CurrentHop;
use standard_path::view;
use validator::StandardValidator;

// What is done with the packet, once every check has passed. The parts of the path are handed on to field readers, as 01 has it.
#[tactic(auto, unfolding(crate::specs::Egress::leaving_action))]
fn egress_action(hop: &[u8], info: &[u8]) -> AsRoutingAction
    ensures { result ≡ leaving_action hop.now info.now }
{
    let out = fields::egress_interface(hop, info);
    if fields::egress_scmp_alert(hop, info) && out != 0 {
        return AsRoutingAction::Local(LocalAsRoutingAction::EgressSCMPHandleRequest {
            interface_id: out,
        });
    }
    AsRoutingAction::ForwardNextHop {
        egress_interface_id: out,
    }
}

// Here and below edition, table, key and `at` are no struct: a signature has those that the function depends on. These checks ask no
// edition and no table, the move no key.

// The answer, from the path as it came.
#[tactic(auto, using(place::proofs::Places::asked_no, place::proofs::Places::asked_yes))]
fn decide_egress(forwarding_key: &ForwardingKey, at: StandardValidator, path: &[u8]) -> StepAnswer
    ensures { result ≡ asks Err (egress_questions (key_mac forwarding_key.now) at path.now)
        (Ok (egress_action path.now)) }
{
    let action = egress_action(view::curr_hop_field(path), view::curr_info_field(path));
    checks::validate_egress(forwarding_key, at, path)?;
    Ok(action)
}

#[tactic(auto, using(moves::proofs::Lent::egress_move_lent))]
fn egress_here(
    edition: Edition,
    forwarding_key: &ForwardingKey,
    at: StandardValidator,
    path: &mut [u8],
) -> StepAnswer
    ensures value { result ≡ asks Err (egress_questions (key_mac forwarding_key.now) at path.old)
        (Ok (egress_action path.old)) }
    ensures path_after { path.new ≡ egress_move edition path.old }
{
    let current = CurrentHop::of(path);
    let answer = decide_egress(forwarding_key, at, path);
    moves::move_egress(edition, path, current);
    answer
}

// The egress half, with a validator.
#[tactic(auto, unfolding(crate::specs::Egress::egress), using(place::proofs::Places::asked_yes))]
pub fn advance_egress_with_validator(
    edition: Edition,
    interfaces: InterfaceTable<'_>,
    forwarding_key: &ForwardingKey,
    at: StandardValidator,
    path: &mut [u8],
) -> StepAnswer
    ensures value { result ≡ (egress edition interfaces.entry.ids.now interfaces.entry.states.now
        (key_mac forwarding_key.now) at path.old).answer }
    ensures path_after { path.new ≡ (egress edition interfaces.entry.ids.now interfaces.entry.states.now
        (key_mac forwarding_key.now) at path.old).bytes }
{
    place::check_before(interfaces, path)?;
    place::check_egress_place(edition, path)?;
    egress_here(edition, forwarding_key, at, path)
}

// The egress half inside the whole step, where the path is known to stand. An ingress that went on has had a yes to 1 to 4 and to 10 to 12
// of this hop, and 19 is asked of a call alone.
#[tactic(auto, using(moves::proofs::Lent::egress_move_lent))]
pub fn egress_inside(edition: Edition, path: &mut [u8]) -> AsRoutingAction
    ensures value { result ≡ egress_action path.old }
    ensures path_after { path.new ≡ egress_move edition path.old }
{
    let current = CurrentHop::of(path);
    let action = egress_action(view::curr_hop_field(path), view::curr_info_field(path));
    moves::move_egress(edition, path, current);
    action
}
