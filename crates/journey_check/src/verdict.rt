// The journey check: 01's questions 2 to 4 and 23 to 25, then the conditions of a pass.
ghost use Rattle.std.specs.Prelude.{◌≡◌, length};
ghost use Rattle.records.specs.Layout.{narrow, layout_of};
ghost use Rattle.itinerary.specs.Itinerary.{stations};
ghost use Rattle.journey.specs.Check.{passes};
ghost use Rattle.journey_questions.specs.Questions.{station_count};
ghost use Rattle.journey.specs.Verdict.{journey_check, Demand3};

use edition::Edition;
use joint_check::joints_fit;
use journey_questions::answer::{JourneyError, Verdict};
use journey_questions::asked::{is_at_start, is_quiet, itinerary_fits};
use journey_questions::segments::{first_stations, lengths_pass};
use records::Itinerary;
use records::form::Form;
use segment_check::journey::Journey;
use segment_check::segments::segments_fit;
use standard_path::view;

// ---- the conditions of a pass

#[tactic(auto, using(crate::proofs::Verdicts::pass_answers))]
fn passes(journey: Journey<'_>) -> bool
    requires { let j = journey in length (stations (layout_of j.itinerary.form) j.itinerary.bytes.now)
        ≡ station_count j.edition j.path.now }
    ensures { let j = journey.entry in result ≡ passes j.edition (stations (layout_of j.itinerary.form) j.itinerary.bytes.now)
        j.earliest j.latest j.path.now }
{
    if !edition::peering_fits(journey.edition, journey.path) {
        return false;
    }
    if !lengths_pass(journey.edition, journey.path) {
        return false;
    }
    let firsts = first_stations(journey);
    segments_fit(journey, firsts) & joints_fit(journey, firsts)
}

// ---- the questions

// In any form of the itinerary.
#[tactic(auto, using(crate::proofs::Verdicts::check_answers), unfolding(questions::specs::Questions::asks))]
fn check(journey: Journey<'_>) -> Result<Verdict, JourneyError>
    ensures { let j = journey.entry in result ≡ journey_check j.edition (layout_of j.itinerary.form) j.itinerary.bytes.now
        j.earliest j.latest j.path.now }
{
    view::check_header(journey.path)?;
    if !itinerary_fits(journey) {
        return Err(JourneyError::UnfitItinerary);
    }
    if !is_at_start(journey.path) {
        return Err(JourneyError::NotAtStart);
    }
    if !is_quiet(journey.path) {
        return Err(JourneyError::AlertSet);
    }
    if passes(journey) {
        Ok(Verdict::Passed)
    } else {
        Ok(Verdict::NotPassed)
    }
}

// The five parameters are what 01 hands over; inside they go together, as a `Journey`.
#[tactic(auto, using(crate::proofs::Verdicts::answers_demand))]
pub fn check_journey(
    edition: Edition,
    path: &[u8],
    itinerary: &[u8],
    earliest: u32,
    latest: u32,
) -> Result<Verdict, JourneyError>
    ensures value { result ≡ journey_check edition narrow itinerary.now earliest latest path.now }
    ensures demand3 { Demand3 edition narrow itinerary.now earliest latest path.now result }
{
    let itinerary = Itinerary {
        form: Form::Narrow,
        bytes: itinerary,
    };
    check(Journey {
        edition,
        path,
        itinerary,
        earliest,
        latest,
    })
}
