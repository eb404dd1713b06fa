// Answers as numbers, for callers that know no enum of Rattle.
#![tactic(auto)]

ghost use Rattle.std.specs.Prelude.{◌≡◌, take, get_or, None};
ghost use Rattle.scmp.specs.Scmp.{scmp_values};
ghost use Rattle.reply.specs.Reply.{reply, refusal_reply, action_reply, step_reply, ingress_reply};
ghost use Rattle.reply.specs.Reply.{reversal_reply, expiration_reply, index_reply, segment_reply, journey_reply};

use answers::number::Values;
use answers::{
    AsRoutingAction, IngressAnswer, IngressNextAction, StandardRoutingError, StepAnswer, number,
};
use journey_questions::answer;
use journey_questions::answer::{JourneyError, Verdict};
use reverse::PathReverseError;
use scmp::ScmpError;
use standard_path::view;
use standard_path::view::{HeaderError, SegmentIndex};

// 01's number for a refusal, one from 100 on for an action; the values it carries, in 01's order, and how many they are;
// the SCMP error's type (0 for none), code, and pointer or interface. It is numbers, and a count, since C's struct is.
#[repr(C)]
#[derive(Clone, Copy)]
pub struct Reply {
    pub number: u16,
    pub count: u16,
    pub values: [u64; 4],
    pub kind: u8,
    pub code: u8,
    pub pointer: u32,
}

impl Reply {
    fn new(number: u8, values: Values, error: Option<ScmpError>) -> Reply
        ensures { result ≡ record {
          number = number;
          count = values.count;
          values = values.places;
          kind = get_or (scmp_values error) 0 0;
          code = get_or (scmp_values error) 1 0;
          pointer = get_or (scmp_values error) 2 0;
        } }
    {
        let Values {
            count,
            places: values,
        } = values;
        let (kind, code, pointer) = match error {
            Some(ScmpError::ParameterProblem { code, pointer }) => (4, u8::from(code), pointer),
            Some(ScmpError::ExternalInterfaceDown { interface_id }) => (
                5,
                0,
                u32::from(interface_id),
            ),
            None => (0, 0, 0),
        };
        Reply {
            number: u16::from(number),
            count: u16::from(count),
            values,
            kind,
            code,
            pointer,
        }
    }
}

// Without an SCMP error.
fn plain(number: u8, values: &[u64]) -> Reply
    ensures { result ≡ reply number (take 4 values.now) None }
{
    Reply::new(number, Values::of(values), None)
}

// ---- the step

#[tactic(auto, unfolding(crate::specs::Reply::refusal_reply))]
fn refusal_reply(why: StandardRoutingError) -> Reply
    ensures { result ≡ refusal_reply why }
{
    Reply::new(
        number::refusal_number(why),
        number::refusal_values(why),
        scmp::to_scmp_error(why),
    )
}

fn action_reply(action: AsRoutingAction) -> Reply
    ensures { result ≡ action_reply action }
{
    Reply::new(
        number::action_number(action),
        number::action_values(action),
        None,
    )
}

// Here and below an answer's number depends on the call, which a type such as `Result<u32, HeaderError>` does not say: so each has its
// function, and no `From`. Each kind of error has its own numbers, named here: a trait for them would hide which a call can give.
#[tactic(auto, unfolding(crate::specs::Reply::step_reply))]
pub fn step_reply(answer: StepAnswer) -> Reply
    ensures { result ≡ step_reply answer }
{
    match answer {
        Ok(action) => action_reply(action),
        Err(why) => refusal_reply(why),
    }
}

#[tactic(auto, unfolding(crate::specs::Reply::ingress_reply))]
pub fn ingress_reply(answer: IngressAnswer) -> Reply
    ensures { result ≡ ingress_reply answer }
{
    match answer {
        Ok(
            IngressNextAction::ContinueEgress {
                egress_interface_id,
            },
        ) => plain(100, &[u64::from(egress_interface_id)]),
        Ok(IngressNextAction::Complete(action)) => action_reply(action),
        Err(why) => refusal_reply(why),
    }
}

// ---- the other calls

#[tactic(auto, unfolding(crate::specs::Reply::reversal_reply))]
pub fn reversal_reply(answer: Result<(), PathReverseError>) -> Reply
    ensures { result ≡ reversal_reply answer }
{
    match answer {
        Ok(()) => plain(110, &[]),
        Err(error) => plain(reverse::reverse_number(error), &[]),
    }
}

#[tactic(auto, unfolding(crate::specs::Reply::expiration_reply))]
pub fn expiration_reply(answer: Result<u32, HeaderError>) -> Reply
    ensures { result ≡ expiration_reply answer }
{
    match answer {
        Ok(time) => plain(111, &[u64::from(time)]),
        Err(error) => plain(view::header_number(error), &[]),
    }
}

#[tactic(auto, unfolding(crate::specs::Reply::index_reply))]
fn index_reply(hop_idx: u8, answer: Option<SegmentIndex>) -> Reply
    ensures { result ≡ index_reply hop_idx answer }
{
    match answer {
        Some(SegmentIndex { index, start, end }) => plain(
            112,
            &[u64::from(index), u64::from(start), u64::from(end)],
        ),
        None => plain(5, &[u64::from(hop_idx)]),
    }
}

pub fn segment_reply(path: &[u8], hop_idx: u8) -> Reply
    ensures { result ≡ segment_reply path.now hop_idx }
{
    match view::check_header(path) {
        Ok(()) => index_reply(hop_idx, view::calculate_segment_index(path, hop_idx)),
        Err(error) => plain(view::header_number(error), &[]),
    }
}

#[tactic(auto, unfolding(crate::specs::Reply::journey_reply))]
pub fn journey_reply(answer: Result<Verdict, JourneyError>) -> Reply
    ensures { result ≡ journey_reply answer }
{
    match answer {
        Ok(Verdict::Passed) => plain(120, &[]),
        Ok(Verdict::NotPassed) => plain(121, &[]),
        Err(error) => plain(answer::journey_number(error), &[]),
    }
}
