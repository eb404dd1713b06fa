// The checks that each half of the step makes of the hops that it uses.
//
// Ported from `advance_ingress_with_validator` and `advance_egress_with_validator` in
// crates/libs/sciparse/src/proto/dataplane_path/standard/routing.rs of Anapaya/scion-sdk at commit 866faf5ba3, and changed:
// rewritten in Rattle, with contracts; one key schedule serves all MACs of a call.
// Copyright 2026 Anapaya Systems
// Licensed under the Apache License, Version 2.0: see NOTICE.
#![tactic(auto)]

ghost use Rattle.std.specs.Prelude.{◌≡◌, false, drop};
ghost use Rattle.answers.specs.Questions.{first_no};
ghost use Rattle.validator.specs.Check.{key_mac};
ghost use Rattle.checks.specs.Checks.{next_field_questions, ingress_questions, egress_questions};

use aes_keys::expand_key;
use answers::Validation;
use cmac::KeySchedule;
use edition::Edition;
use hop_mac::ForwardingKey;
use interface_table::InterfaceTable;
use place::{next_hop_field, next_info_field};
use segment_change::validate_segment_change;
use standard_path::view;
use validator::{StandardValidator, validate_mac};

// Edition, table, key and `at` are no struct: a signature has those that the function depends on. `validate_next` asks no edition and no
// key, `validate_egress` no edition and no table.

// ---- ingress

// Questions 13 to 16, and 9 to 11 for the next hop.
#[tactic(auto, unfolding(questions::specs::Questions::asks))]
fn validate_next(interfaces: InterfaceTable<'_>, at: StandardValidator, path: &[u8]) -> Validation
    ensures { result ≡ first_no (next_field_questions interfaces.entry.ids.now interfaces.entry.states.now at path.now) }
{
    let hop_index = view::curr_hop_field_idx(path);
    let next_hop = next_hop_field(path);
    let next_info = next_info_field(path);
    validate_segment_change(
        interfaces,
        hop_index,
        view::curr_hop_field(path),
        view::curr_info_field(path),
        next_hop,
        next_info,
    )?;
    at.validate_hop(hop_index + 1, next_hop, next_info)
}

// From question 12 on, where MACs are checked: one key schedule serves both hops. Why the edition and the path are two parameters is said
// beside `Edition`.
#[tactic(auto, unfolding(questions::specs::Questions::asks), using(validator::proofs::Schedule::hop_mac_law))]
fn validate_checked(
    edition: Edition,
    interfaces: InterfaceTable<'_>,
    forwarding_key: &ForwardingKey,
    at: StandardValidator,
    path: &[u8],
    change: bool,
) -> Validation
    requires { at.ignore_macs ≡ false }
    ensures { result ≡ first_no (drop 3 (ingress_questions edition interfaces.entry.ids.now interfaces.entry.states.now
        (key_mac forwarding_key.now) at path.now change)) }
{
    let table = aes::round_table();
    let round_keys = expand_key(*forwarding_key);
    let schedule = KeySchedule::new(&table, &round_keys);
    let hop_index = view::curr_hop_field_idx(path);
    validate_mac(
        schedule,
        hop_index,
        view::curr_hop_field(path),
        view::curr_info_field(path),
        moves::ingress_segment_id(edition, path, at.current_interface_id),
    )?;
    if !change {
        return Ok(());
    }
    validate_next(interfaces, at, path)?;
    let next_info = next_info_field(path);
    let segment_id = fields::segment_id(next_info);
    validate_mac(
        schedule,
        hop_index + 1,
        next_hop_field(path),
        next_info,
        segment_id,
    )
}

// Questions 9 to 16 at ingress.
#[tactic(auto, unfolding(questions::specs::Questions::asks))]
pub fn validate_ingress(
    edition: Edition,
    interfaces: InterfaceTable<'_>,
    forwarding_key: &ForwardingKey,
    at: StandardValidator,
    path: &[u8],
    change: bool,
) -> Validation
    ensures { result ≡ first_no (ingress_questions edition interfaces.entry.ids.now interfaces.entry.states.now
        (key_mac forwarding_key.now) at path.now change) }
{
    at.validate_hop(
        view::curr_hop_field_idx(path),
        view::curr_hop_field(path),
        view::curr_info_field(path),
    )?;
    if !at.ignore_macs {
        return validate_checked(edition, interfaces, forwarding_key, at, path, change);
    }
    if change {
        return validate_next(interfaces, at, path);
    }
    Ok(())
}

// ---- egress

// Questions 19, 10, 11 and 12.
#[tactic(auto, unfolding(questions::specs::Questions::asks))]
pub fn validate_egress(
    forwarding_key: &ForwardingKey,
    at: StandardValidator,
    path: &[u8],
) -> Validation
    ensures { result ≡ first_no (egress_questions (key_mac forwarding_key.now) at path.now) }
{
    let hop_index = view::curr_hop_field_idx(path);
    let hop = view::curr_hop_field(path);
    let info = view::curr_info_field(path);
    at.validate_hop(hop_index, hop, info)?;
    if at.ignore_macs {
        return Ok(());
    }
    let table = aes::round_table();
    let round_keys = expand_key(*forwarding_key);
    let schedule = KeySchedule::new(&table, &round_keys);
    validate_mac(schedule, hop_index, hop, info, fields::segment_id(info))
}
