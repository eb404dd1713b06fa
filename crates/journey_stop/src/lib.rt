// Where the journey stops, for a call that 2 to 4 and 23 to 25 let through: what a run meets with every clock at one reading. It runs on a
// copy of the header.
#![tactic(auto)]

ghost use Rattle.std.specs.Prelude.{◌≡◌, ◌≤◌, true, length, take, Some, Ok};
ghost use Rattle.questions.specs.Questions.{all_yes};
ghost use Rattle.standard_path.specs.Header.{header_size, header_check};
ghost use Rattle.records.specs.Layout.{layout_of};
ghost use Rattle.itinerary.specs.Itinerary.{stations};
ghost use Rattle.journey_questions.specs.Questions.{questions};
ghost use Rattle.journey_stops.specs.Stop.{run, stop};
ghost use Rattle.journey_run.specs.Run.{end_of};
ghost use Rattle.journey_stop.specs.Inner.{stop_at};

use journey_run::JourneyEnd;
use journey_stops::{Reading, Stop, step_number};
use segment_check::journey::Journey;
use standard_path::view;

// The longest header that 4 lets through.
const MAX_HEADER_BYTES: usize = 796;

// ---- a run on a copy

#[tactic(auto, using(crate::proofs::Complete::taken, crate::proofs::Complete::few), unfolding(standard_path::specs::Header::header_size))]
fn header(path: &[u8]) -> &[u8]
    requires { header_check path.now ≡ Ok tt }
    ensures value { result.now ≡ take (header_size path.now) path.now }
    ensures few { length result.now ≤ 796 }
{
    &path[..view::hop_field_offset(path, view::hop_field_count(path))]
}

// The questions let no plan through that has no station: the run ends at one.
#[tactic(auto, using(crate::proofs::Complete::complete, crate::proofs::Runs::copy_ends, crate::proofs::Runs::copy_ended))]
fn run_copy(journey: Journey<'_>, reading: u32) -> JourneyEnd
    requires { let j = journey in all_yes (questions j.edition (layout_of j.itinerary.form) j.itinerary.bytes.now
        j.earliest j.latest j.path.now) ≡ true }
    ensures { let j = journey.entry in end_of (run j.edition (stations (layout_of j.itinerary.form) j.itinerary.bytes.now)
        j.path.now reading) ≡ Some result }
{
    let header = header(journey.path);
    // There is no heap: the room for the longest header.
    let mut room = [0; MAX_HEADER_BYTES];
    let copy = &mut room[..header.len()];
    copy.copy_from_slice(header);
    journey_run::run(journey.edition, journey.itinerary, copy, reading).unwrap()
}

// ---- where it ended

fn stop_at(reading: Reading, end: JourneyEnd) -> Stop
    ensures { result ≡ stop_at reading end }
{
    Stop {
        station: end.station,
        number: step_number(end.answer),
        reading,
    }
}

// ---- the two runs

// Where the questions let a call through, a run that is not refused arrives.
#[tactic(auto, using(crate::proofs::Runs::stops_early, crate::proofs::Runs::stops_late))]
pub(crate) fn stop(journey: Journey<'_>) -> Stop
    requires { let j = journey in all_yes (questions j.edition (layout_of j.itinerary.form) j.itinerary.bytes.now
        j.earliest j.latest j.path.now) ≡ true }
    ensures { let j = journey.entry in result ≡ stop j.edition (stations (layout_of j.itinerary.form) j.itinerary.bytes.now)
        j.earliest j.latest j.path.now }
{
    let first = run_copy(journey, journey.earliest);
    if first.answer.is_err() {
        return stop_at(Reading::Earliest, first);
    }
    stop_at(Reading::Latest, run_copy(journey, journey.latest))
}
