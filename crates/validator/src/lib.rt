// The checks of a hop.
//
// Ported from `StandardValidator` in crates/pocketscion/src/network/scion/routing/spec/standard.rs of Anapaya/scion-sdk at commit
// 866faf5ba3, and changed: rewritten in Rattle, with contracts; one fixed set of checks in place of a trait.
// Copyright 2025 Anapaya Systems
// Licensed under the Apache License, Version 2.0: see NOTICE.
#![tactic(auto)]

ghost use Rattle.std.specs.Prelude.{◌≡◌, ◌||◌, false, eqb};
ghost use Rattle.answers.specs.Questions.{first_no};
ghost use Rattle.validator.specs.Check.{mac_number, interface_fits, wrong_interface, right_mac};
ghost use Rattle.validator.specs.Inner.{schedule_mac};
ghost use Rattle.validator.specs.Check.{field_questions, mac_questions};

use answers::{StandardRoutingError, Validation};
use cmac::KeySchedule;
use hop_mac::calculate_hop_mac_with;

// Where a hop is checked: at ingress or at egress, on which interface, when, and whether its MAC is not asked for. `ingress` is a flag: 01
// has one set of checks, told whether it works at ingress or at egress.
#[derive(Clone, Copy)]
pub struct StandardValidator {
    pub ingress: bool,
    pub current_interface_id: u16,
    pub time: u32,
    pub ignore_macs: bool,
}

// The six bytes of a MAC as one number.
#[tactic(auto, unfolding(crate::specs::Check::mac_number))]
pub fn mac_number(mac: [u8; 6]) -> u64
    ensures { result ≡ mac_number mac }
{
    u64::from_be_bytes([0, 0, mac[0], mac[1], mac[2], mac[3], mac[4], mac[5]])
}

fn arrives(interface: u16, found: u16) -> bool
    ensures { result ≡ (eqb interface 0 || eqb found 0 || eqb found interface) }
{
    interface == 0 || found == 0 || found == interface
}

// Here and below a hop field and its info field are two parts of the path, handed on as they are, and beside them the hop's index, which
// only a refusal names: a struct of the three would be filled for each call, and taken apart for each reader of a field.

// The MAC that a hop should have, as a number.
#[inline(always)]
pub fn expected_mac(schedule: KeySchedule<'_>, hop: &[u8], info: &[u8], segment_id: u16) -> u64
    ensures { result ≡ right_mac (schedule_mac schedule.entry.table.now schedule.entry.round_keys.now schedule.entry.k1)
        hop.now info.now segment_id }
{
    let mac = calculate_hop_mac_with(
        schedule,
        segment_id,
        fields::timestamp(info),
        fields::exp_time(hop),
        fields::cons_ingress(hop),
        fields::cons_egress(hop),
    );
    mac_number(mac)
}

impl StandardValidator {
    fn interface_fits(self, hop: &[u8], info: &[u8]) -> bool
        ensures { result ≡ interface_fits self hop.now info.now }
    {
        if self.ingress {
            return arrives(
                self.current_interface_id,
                fields::ingress_interface(hop, info),
            );
        }
        fields::egress_interface(hop, info) == self.current_interface_id
    }

    fn wrong_interface(self, hop_index: u8, hop: &[u8], info: &[u8]) -> StandardRoutingError
        ensures { result ≡ wrong_interface self hop_index hop.now info.now }
    {
        let expected = self.current_interface_id;
        let cons_dir = fields::cons_dir(info);
        if self.ingress {
            let found = fields::ingress_interface(hop, info);
            return StandardRoutingError::InvalidIngressInterface {
                hop_index,
                expected,
                found,
                cons_dir,
            };
        }
        let found = fields::egress_interface(hop, info);
        StandardRoutingError::InvalidEgressInterface {
            hop_index,
            expected,
            found,
            cons_dir,
        }
    }

    // Questions 9 to 11 at ingress, 19, 10 and 11 at egress: those that ask for no MAC. In line: called, it took 54 instructions, 43 before
    // its answer was a `Result` (callgrind).
    #[tactic(auto, unfolding(questions::specs::Questions::asks))]
    #[inline(always)]
    pub fn validate_hop(self, hop_index: u8, hop: &[u8], info: &[u8]) -> Validation
        ensures { result ≡ first_no (field_questions self hop_index hop.now info.now) }
    {
        if !self.interface_fits(hop, info) {
            return Err(self.wrong_interface(hop_index, hop, info));
        }
        if self.time < fields::timestamp(info) {
            return Err(StandardRoutingError::FutureTimestamp { hop_index });
        }
        if fields::expiry_timestamp(hop, info) < self.time {
            return Err(StandardRoutingError::SegmentExpired { hop_index });
        }
        Ok(())
    }
}

// Question 12, wherever MACs are checked.
#[tactic(auto, unfolding(questions::specs::Questions::asks))]
#[inline(always)]
pub fn validate_mac(
    schedule: KeySchedule<'_>,
    hop_index: u8,
    hop: &[u8],
    info: &[u8],
    segment_id: u16,
) -> Validation
    ensures { result ≡ first_no (mac_questions (schedule_mac schedule.entry.table.now schedule.entry.round_keys.now schedule.entry.k1)
        false hop_index hop.now info.now segment_id) }
{
    let expected = expected_mac(schedule, hop, info, segment_id);
    let actual = mac_number(fields::mac(hop));
    if expected != actual {
        return Err(StandardRoutingError::InvalidMacError {
            hop_index,
            expected,
            actual,
        });
    }
    Ok(())
}
