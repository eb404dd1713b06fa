// The journey over the stations of a plan, with every clock at one reading, on a lent path.
#![tactic(auto)]

ghost use Rattle.std.specs.Prelude.{◌≡◌};
ghost use Rattle.records.specs.Layout.{layout_of};
ghost use Rattle.itinerary.specs.Itinerary.{stations};
ghost use Rattle.journey.specs.Journey.{goes_on};
ghost use Rattle.journey_stops.specs.Stop.{run};
ghost use Rattle.journey_run.specs.Run.{end_of, left_of};

use answers::{AsRoutingAction, StepAnswer};
use edition::Edition;
use records::Itinerary;
use station::Station;
use station_step::step_at;

// Where a journey ended: the station, counted from 0, and what it answered.
#[derive(Clone, Copy)]
pub struct JourneyEnd {
    pub station: usize,
    pub answer: StepAnswer,
}

#[tactic(auto, unfolding(journey::specs::Journey::goes_on))]
fn goes_on(answer: StepAnswer) -> bool
    ensures { result ≡ goes_on answer }
{
    matches!(answer, Ok(AsRoutingAction::ForwardNextHop { .. }))
}

// The journey from the plan's first station, every clock at `reading`. None, if there is no station to go to. It takes no `Journey`, whose
// path is lent to be read: this one is lent to be moved.
#[tactic(auto, using(crate::proofs::Running::begins, crate::proofs::Running::goes_further))]
pub fn run(
    edition: Edition,
    itinerary: Itinerary<'_>,
    path: &mut [u8],
    reading: u32,
) -> Option<JourneyEnd>
    ensures value { result ≡ end_of (run edition
        (stations (layout_of itinerary.entry.form) itinerary.entry.bytes.now) path.old reading) }
    ensures path_after { path.new ≡ left_of path.old (run edition
        (stations (layout_of itinerary.entry.form) itinerary.entry.bytes.now) path.old reading) }
{
    let mut end = None;
    for (station, index) in itinerary.station_records().enumerate() {
        let answer = step_at(edition, Station { itinerary, index }, path, reading);
        end = Some(JourneyEnd { station, answer });
        if !goes_on(answer) {
            break;
        }
    }
    end
}
