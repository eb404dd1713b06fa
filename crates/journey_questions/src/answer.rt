// What the journey check answers.
ghost use Rattle.std.specs.Prelude.{◌≡◌};
ghost use Rattle.journey_questions.specs.Questions.{journey_number};
ghost use Rattle.journey_questions.specs.declared.answer.JourneyError.TheVariants.{HeaderFailed};

use standard_path::view;
use standard_path::view::HeaderError;

// Why a call is refused.
#[derive(Clone, Copy)]
pub enum JourneyError {
    HeaderFailed(HeaderError),
    // The itinerary, a table of it, the count of its stations, their arrivals, or the order of the two clock readings.
    UnfitItinerary,
    NotAtStart,
    AlertSet,
}

impl From<HeaderError> for JourneyError {
    ghost from_gives = { λ error why. why ≡ HeaderFailed error };

    fn from(error: HeaderError) -> JourneyError {
        JourneyError::HeaderFailed(error)
    }
}

#[derive(Clone, Copy)]
pub enum Verdict {
    Passed,
    NotPassed,
}

// 01's number of a refusal: one view of the error, which has others.
pub fn journey_number(error: JourneyError) -> u8
    ensures { result ≡ journey_number error }
{
    match error {
        JourneyError::HeaderFailed(error) => view::header_number(error),
        JourneyError::UnfitItinerary => 23,
        JourneyError::NotAtStart => 24,
        JourneyError::AlertSet => 25,
    }
}
