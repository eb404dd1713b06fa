// The hop MAC for C, which bench/mac.c calls and times. The calls are C's, so a MAC's numbers go one by one; the first is also exports'
// `scion_calculate_hop_mac`, and stands here for an archive of its own, with nothing else in it.
#![tactic(auto)]

ghost use Rattle.std.specs.Prelude.{◌≡◌, [], ◌∷◌};
ghost use Rattle.hop_mac.specs.Mac.{hop_mac};

use aes_keys::expand_key;
use cmac::KeySchedule;

// One hop MAC, from its key.
#[unsafe(no_mangle)]
pub extern "C" fn bench_hop_mac(
    segment_id: u16,
    timestamp: u32,
    exp_time: u8,
    cons_ingress: u16,
    cons_egress: u16,
    key: &[u8; 16],
    mac: &mut [u8; 6],
)
    ensures { mac.new ≡ hop_mac segment_id timestamp exp_time cons_ingress cons_egress key.now }
{
    *mac = hop_mac::calculate_hop_mac(
        segment_id,
        timestamp,
        exp_time,
        cons_ingress,
        cons_egress,
        *key,
    );
}

// Three hop MACs under one schedule of their key.
#[tactic(auto, using(hop_mac::proofs::HopMac::hop_mac_from_schedule))]
#[unsafe(no_mangle)]
pub extern "C" fn bench_three_hop_macs(
    first: u16,
    second: u16,
    third: u16,
    timestamp: u32,
    exp_time: u8,
    cons_ingress: u16,
    cons_egress: u16,
    key: &[u8; 16],
    macs: &mut [[u8; 6]; 3],
)
    ensures { macs.new
        ≡ hop_mac first timestamp exp_time cons_ingress cons_egress key.now
        ∷ hop_mac second timestamp exp_time cons_ingress cons_egress key.now
        ∷ hop_mac third timestamp exp_time cons_ingress cons_egress key.now
        ∷ [] }
{
    let table = aes::round_table();
    let round_keys = expand_key(*key);
    let schedule = KeySchedule::new(&table, &round_keys);
    let mac = |segment_id| {
        hop_mac::calculate_hop_mac_with(
            schedule,
            segment_id,
            timestamp,
            exp_time,
            cons_ingress,
            cons_egress,
        )
    };
    *macs = [mac(first), mac(second), mac(third)];
}
