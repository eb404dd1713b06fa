// The step, its halves and the journey check in an edition of the caller's choice: false is the first, true the second. Calls of their
// own beside those of `calls`, so that a C caller of yesterday goes on as before; slices and flags, as there, since C knows none of
// Rattle's types.
ghost use Rattle.std.specs.Prelude.{◌≡◌};
ghost use Rattle.edition.specs.Edition.{edition_of};
ghost use Rattle.ingress.specs.Ingress.{ingress};
ghost use Rattle.egress.specs.Egress.{egress};
ghost use Rattle.validator.specs.Check.{key_mac, at_ingress, at_egress};
ghost use Rattle.routing.specs.Step.{step};
ghost use Rattle.records.specs.Layout.{narrow};
ghost use Rattle.journey.specs.Verdict.{journey_check};
ghost use Rattle.reply.specs.Reply.{step_reply, ingress_reply, journey_reply};
ghost use Rattle.exports.specs.Journey.{SaysWhatTravels};

use edition::Edition;
use interface_table::InterfaceTable;
use journey_check::verdict;
use reply::Reply;
use routing::step;

#[unsafe(no_mangle)]
pub extern "C" fn scion_handle_standard_path_in_edition(
    is_second: bool,
    ids: &[u16],
    states: &[u8],
    path: &mut [u8],
    ingress_interface_id: u16,
    time: u32,
    as_forwarding_key: &[u8; 16],
    ignore_macs: bool,
) -> Reply
    ensures value { result ≡ step_reply (step (edition_of is_second) ids.now states.now
        (key_mac as_forwarding_key.now) ingress_interface_id time ignore_macs path.old).answer }
    ensures path_after { path.new ≡ (step (edition_of is_second) ids.now states.now
        (key_mac as_forwarding_key.now) ingress_interface_id time ignore_macs path.old).bytes }
{
    let answer = step::handle_standard_path(
        Edition::from(is_second),
        InterfaceTable { ids, states },
        path,
        ingress_interface_id,
        time,
        as_forwarding_key,
        ignore_macs,
    );
    reply::step_reply(answer)
}

#[unsafe(no_mangle)]
pub extern "C" fn scion_standard_path_ingress_in_edition(
    is_second: bool,
    ids: &[u16],
    states: &[u8],
    path: &mut [u8],
    ingress_interface_id: u16,
    time: u32,
    forwarding_key: &[u8; 16],
    ignore_macs: bool,
) -> Reply
    ensures value { result ≡ ingress_reply (ingress (edition_of is_second) ids.now states.now
        (key_mac forwarding_key.now) (at_ingress ingress_interface_id time ignore_macs) path.old).answer }
    ensures path_after { path.new ≡ (ingress (edition_of is_second) ids.now states.now
        (key_mac forwarding_key.now) (at_ingress ingress_interface_id time ignore_macs) path.old).bytes }
{
    let answer = step::standard_path_ingress(
        Edition::from(is_second),
        InterfaceTable { ids, states },
        path,
        ingress_interface_id,
        time,
        forwarding_key,
        ignore_macs,
    );
    reply::ingress_reply(answer)
}

#[unsafe(no_mangle)]
pub extern "C" fn scion_standard_path_egress_in_edition(
    is_second: bool,
    ids: &[u16],
    states: &[u8],
    path: &mut [u8],
    egress_if_id: u16,
    time: u32,
    forwarding_key: &[u8; 16],
    ignore_macs: bool,
) -> Reply
    ensures value { result ≡ step_reply (egress (edition_of is_second) ids.now states.now
        (key_mac forwarding_key.now) (at_egress egress_if_id time ignore_macs) path.old).answer }
    ensures path_after { path.new ≡ (egress (edition_of is_second) ids.now states.now
        (key_mac forwarding_key.now) (at_egress egress_if_id time ignore_macs) path.old).bytes }
{
    let answer = step::standard_path_egress(
        Edition::from(is_second),
        InterfaceTable { ids, states },
        path,
        egress_if_id,
        time,
        forwarding_key,
        ignore_macs,
    );
    reply::step_reply(answer)
}

#[unsafe(no_mangle)]
#[tactic(auto, using(crate::proofs::Passed::number_says))]
pub extern "C" fn scion_check_journey_in_edition(
    is_second: bool,
    path: &[u8],
    itinerary: &[u8],
    earliest: u32,
    latest: u32,
) -> Reply
    ensures value { result ≡ journey_reply (journey_check (edition_of is_second) narrow itinerary.now earliest latest
        path.now) }
    ensures says_what_travels { SaysWhatTravels (edition_of is_second) narrow itinerary.now earliest latest path.now
        result.number }
{
    reply::journey_reply(verdict::check_journey(
        Edition::from(is_second),
        path,
        itinerary,
        earliest,
        latest,
    ))
}
