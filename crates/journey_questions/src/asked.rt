// 01's questions 23 to 25.
ghost use Rattle.std.specs.Prelude.{◌≡◌, not, ◌&&◌, eqb, leb};
ghost use Rattle.standard_path.specs.Meta.{curr_hf, curr_inf};
ghost use Rattle.fields.specs.Fields.{cons_ingress_alert, cons_egress_alert};
ghost use Rattle.records.specs.Layout.{layout_of};
ghost use Rattle.itinerary.specs.Itinerary.{itinerary_fits};
ghost use Rattle.journey_questions.specs.Questions.{station_count, quiet};

use edition::Edition;
use segment_check::journey::Journey;
use standard_path::view;

// Here and in `segments` a question on the path alone takes the two parts of the journey that it depends on.
#[tactic(auto, unfolding(standard_path::specs::Header::infos, standard_path::specs::Header::hops))]
fn station_count(edition: Edition, path: &[u8]) -> u8
    ensures { result ≡ station_count edition path.now }
{
    if edition::is_peering_path(edition, path) {
        return view::hop_field_count(path);
    }
    view::hop_field_count(path) - view::info_field_count(path) + 1
}

pub fn itinerary_fits(journey: Journey<'_>) -> bool
    ensures { let j = journey.entry in result ≡
        (itinerary_fits (layout_of j.itinerary.form) j.itinerary.bytes.now (station_count j.edition j.path.now)
        && leb j.earliest j.latest) }
{
    itinerary::fits(
        journey.itinerary,
        station_count(journey.edition, journey.path),
    ) & (journey.earliest <= journey.latest)
}

pub fn is_at_start(path: &[u8]) -> bool
    ensures { result ≡ (eqb (curr_hf path.now) 0 && eqb (curr_inf path.now) 0) }
{
    (view::curr_hop_field_idx(path) == 0) & (view::curr_info_field_idx(path) == 0)
}

fn is_hop_quiet(hop: &[u8]) -> bool
    ensures { result ≡ (not (cons_ingress_alert hop.now) && not (cons_egress_alert hop.now)) }
{
    !fields::cons_ingress_router_alert(hop) & !fields::cons_egress_router_alert(hop)
}

pub fn is_quiet(path: &[u8]) -> bool
    ensures { result ≡ quiet path.now }
{
    (0..view::hop_field_count(path)).all(|index| is_hop_quiet(view::hop_field(path, index)))
}
