// The calls of C. Each takes any bytes, numbers and lengths; a pointer that is not valid for its length, or an argument that is written
// and overlaps another, is the caller's fault.
// Slices, numbers and flags stand where the crates below have structs and enums, since C knows none of Rattle's.
ghost use Rattle.std.specs.Prelude.{◌≡◌};
ghost use Rattle.cmac.specs.Cmac.{aes_cmac};
ghost use Rattle.hop_mac.specs.Mac.{hop_mac};
ghost use Rattle.expiration.specs.Expiration.{expiration};
ghost use Rattle.reverse.specs.Reverse.{reverse_answer, reverse_bytes};
ghost use Rattle.edition.specs.declared.Edition.TheVariants.{First};
ghost use Rattle.ingress.specs.Ingress.{ingress};
ghost use Rattle.egress.specs.Egress.{egress};
ghost use Rattle.validator.specs.Check.{key_mac, at_ingress, at_egress};
ghost use Rattle.routing.specs.Step.{step};
ghost use Rattle.records.specs.Layout.{narrow};
ghost use Rattle.journey.specs.Verdict.{journey_check};
ghost use Rattle.reply.specs.Reply.{step_reply, ingress_reply, reversal_reply, expiration_reply, segment_reply, journey_reply};
ghost use Rattle.exports.specs.Journey.{SaysWhatTravels};

use reply::Reply;

// The version of these calls, which each change to one of them or to what it answers raises. The name has it too: a program that
// asks for it does not link with an archive of another version.
#[unsafe(no_mangle)]
pub extern "C" fn scion_step_version_2() -> u32
    ensures { result ≡ 2 }
{
    exports::calls::scion_step_version_2()
}

// ---- the step

#[unsafe(no_mangle)]
pub extern "C" fn scion_handle_standard_path(
    ids: &[u16],
    states: &[u8],
    path: &mut [u8],
    ingress_interface_id: u16,
    time: u32,
    as_forwarding_key: &[u8; 16],
    ignore_macs: bool,
) -> Reply
    ensures value { result ≡ step_reply (step First ids.now states.now (key_mac as_forwarding_key.now)
        ingress_interface_id time ignore_macs path.old).answer }
    ensures path_after { path.new ≡ (step First ids.now states.now (key_mac as_forwarding_key.now)
        ingress_interface_id time ignore_macs path.old).bytes }
{
    exports::calls::scion_handle_standard_path(
        ids,
        states,
        path,
        ingress_interface_id,
        time,
        as_forwarding_key,
        ignore_macs,
    )
}

#[unsafe(no_mangle)]
pub extern "C" fn scion_standard_path_ingress(
    ids: &[u16],
    states: &[u8],
    path: &mut [u8],
    ingress_interface_id: u16,
    time: u32,
    forwarding_key: &[u8; 16],
    ignore_macs: bool,
) -> Reply
    ensures value { result ≡ ingress_reply (ingress First ids.now states.now (key_mac forwarding_key.now)
        (at_ingress ingress_interface_id time ignore_macs) path.old).answer }
    ensures path_after { path.new ≡ (ingress First ids.now states.now (key_mac forwarding_key.now)
        (at_ingress ingress_interface_id time ignore_macs) path.old).bytes }
{
    exports::calls::scion_standard_path_ingress(
        ids,
        states,
        path,
        ingress_interface_id,
        time,
        forwarding_key,
        ignore_macs,
    )
}

#[unsafe(no_mangle)]
pub extern "C" fn scion_standard_path_egress(
    ids: &[u16],
    states: &[u8],
    path: &mut [u8],
    egress_if_id: u16,
    time: u32,
    forwarding_key: &[u8; 16],
    ignore_macs: bool,
) -> Reply
    ensures value { result ≡ step_reply (egress First ids.now states.now (key_mac forwarding_key.now)
        (at_egress egress_if_id time ignore_macs) path.old).answer }
    ensures path_after { path.new ≡ (egress First ids.now states.now (key_mac forwarding_key.now)
        (at_egress egress_if_id time ignore_macs) path.old).bytes }
{
    exports::calls::scion_standard_path_egress(
        ids,
        states,
        path,
        egress_if_id,
        time,
        forwarding_key,
        ignore_macs,
    )
}

// ---- the path by itself

#[unsafe(no_mangle)]
pub extern "C" fn scion_try_reverse(path: &mut [u8]) -> Reply
    ensures value { result ≡ reversal_reply (reverse_answer path.old) }
    ensures path_after { path.new ≡ reverse_bytes path.old }
{
    exports::calls::scion_try_reverse(path)
}

#[unsafe(no_mangle)]
pub extern "C" fn scion_expiration(path: &[u8]) -> Reply
    ensures { result ≡ expiration_reply (expiration path.now) }
{
    exports::calls::scion_expiration(path)
}

#[unsafe(no_mangle)]
pub extern "C" fn scion_calculate_segment_index(path: &[u8], hop_idx: u8) -> Reply
    ensures { result ≡ segment_reply path.now hop_idx }
{
    exports::calls::scion_calculate_segment_index(path, hop_idx)
}

// ---- the journey check

#[unsafe(no_mangle)]
pub extern "C" fn scion_check_journey(
    path: &[u8],
    itinerary: &[u8],
    earliest: u32,
    latest: u32,
) -> Reply
    ensures value { result ≡ journey_reply (journey_check First narrow itinerary.now earliest latest path.now) }
    ensures says_what_travels { SaysWhatTravels First narrow itinerary.now earliest latest path.now result.number }
{
    exports::calls::scion_check_journey(path, itinerary, earliest, latest)
}

// ---- MACs

#[unsafe(no_mangle)]
pub extern "C" fn scion_aes_cmac(key: &[u8; 16], message: &[u8], mac: &mut [u8; 16])
    ensures { mac.new ≡ aes_cmac key.now message.now }
{
    exports::calls::scion_aes_cmac(key, message, mac)
}

#[unsafe(no_mangle)]
pub extern "C" fn scion_calculate_hop_mac(
    segment_id: u16,
    timestamp: u32,
    exp_time: u8,
    cons_ingress: u16,
    cons_egress: u16,
    key: &[u8; 16],
    mac: &mut [u8; 6],
)
    ensures { mac.new ≡ hop_mac segment_id timestamp exp_time cons_ingress cons_egress key.now }
{
    exports::calls::scion_calculate_hop_mac(
        segment_id,
        timestamp,
        exp_time,
        cons_ingress,
        cons_egress,
        key,
        mac,
    )
}
