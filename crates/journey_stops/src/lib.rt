// What is told of a journey that stops; where that is, is defined in specs/, and its theorem is in proofs/. The code that finds it out is
// the crate journey_stop.
#![tactic(auto)]

ghost use Rattle.std.specs.Prelude.{◌≡◌};
ghost use Rattle.journey_stops.specs.Number.{step_number};

use answers::StepAnswer;
use answers::number::{action_number, refusal_number};

// What every clock reads.
#[derive(Clone, Copy)]
pub enum Reading {
    Earliest,
    Latest,
}

// Where a journey stops: the station, counted from 0, the number of its answer, and what the clocks read. A number, since it is what a
// caller is told: C has no answer of Rattle.
#[derive(Clone, Copy)]
pub struct Stop {
    pub station: usize,
    pub number: u8,
    pub reading: Reading,
}

// The number of what the step answers: one of several views of it, and so no From.
pub fn step_number(answer: StepAnswer) -> u8
    ensures { result ≡ step_number answer }
{
    match answer {
        Ok(action) => action_number(action),
        Err(why) => refusal_number(why),
    }
}
