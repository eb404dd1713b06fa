// The MAC of a hop field, and its chaining.
//
// Ported from crates/libs/sciparse/src/proto/dataplane_path/standard/mac.rs of Anapaya/scion-sdk at commit 866faf5ba3, and changed:
// rewritten in Rattle, with contracts; the traits and the iterator of `mac_chaining_beta` are left out.
// Copyright 2026 Anapaya Systems
// Licensed under the Apache License, Version 2.0: see NOTICE.
#![tactic(auto)]

ghost use Rattle.std.specs.Prelude.{◌≡◌, take};
ghost use Rattle.aes.specs.ByTable.{cipher_by};
ghost use Rattle.cmac.specs.Cmac.{mac_with};
ghost use Rattle.hop_mac.specs.Mac.{mac_input, hop_mac, mac_beta_step};

use cmac::KeySchedule;

pub type ForwardingKey = [u8; 16];

// Here and below the parameters are the Rust's, one by one and in its order.
#[tactic(auto, unfolding(crate::specs::Mac::mac_input), using(crate::proofs::Numbers::be16_bytes, crate::proofs::Numbers::be32_bytes))]
fn mac_input_data(
    mac_chain_beta: u16,
    timestamp: u32,
    exp_time: u8,
    cons_ingress: u16,
    cons_egress: u16,
) -> [u8; 16]
    ensures { result ≡ mac_input mac_chain_beta timestamp exp_time cons_ingress cons_egress }
{
    let [beta_high, beta_low] = mac_chain_beta.to_be_bytes();
    let [time0, time1, time2, time3] = timestamp.to_be_bytes();
    let [ingress_high, ingress_low] = cons_ingress.to_be_bytes();
    let [egress_high, egress_low] = cons_egress.to_be_bytes();
    [
        0,
        0,
        beta_high,
        beta_low,
        time0,
        time1,
        time2,
        time3,
        0,
        exp_time,
        ingress_high,
        ingress_low,
        egress_high,
        egress_low,
        0,
        0,
    ]
}

fn first_six(mac: [u8; 16]) -> [u8; 6]
    ensures { result ≡ take 6 mac }
{
    // Not by `first_chunk` or `array::from_fn`: with them three hop MACs take 2.5 % longer; they are to be no slower than they were.
    [mac[0], mac[1], mac[2], mac[3], mac[4], mac[5]]
}

#[tactic(auto, unfolding(crate::specs::Mac::hop_mac, crate::specs::Mac::full_hop_mac))]
pub fn calculate_hop_mac(
    mac_chain_beta: u16,
    timestamp: u32,
    exp_time: u8,
    cons_ingress: u16,
    cons_egress: u16,
    key: ForwardingKey,
) -> [u8; 6]
    ensures { result ≡ hop_mac mac_chain_beta timestamp exp_time cons_ingress cons_egress key }
{
    let data = mac_input_data(
        mac_chain_beta,
        timestamp,
        exp_time,
        cons_ingress,
        cons_egress,
    );
    first_six(cmac::aes_cmac_block(key, data))
}

// The same from a schedule that was made before, for several MACs under one key.
#[inline(always)]
pub fn calculate_hop_mac_with(
    schedule: KeySchedule<'_>,
    mac_chain_beta: u16,
    timestamp: u32,
    exp_time: u8,
    cons_ingress: u16,
    cons_egress: u16,
) -> [u8; 6]
    ensures { result ≡ take 6 (mac_with (cipher_by schedule.entry.table.now schedule.entry.round_keys.now) schedule.entry.k1
        (mac_input mac_chain_beta timestamp exp_time cons_ingress cons_egress)) }
{
    let data = mac_input_data(
        mac_chain_beta,
        timestamp,
        exp_time,
        cons_ingress,
        cons_egress,
    );
    first_six(schedule.aes_cmac_block(data))
}

// The next accumulator of the MAC chaining.
#[tactic(auto, unfolding(crate::specs::Mac::mac_beta_step))]
pub fn mac_beta_step(accumulator: u16, hop_mac: [u8; 6]) -> u16
    ensures { result ≡ mac_beta_step accumulator hop_mac }
{
    accumulator ^ u16::from_be_bytes([hop_mac[0], hop_mac[1]])
}
