// The two editions of the step, and all that they decide differently.
#![tactic(auto)]

ghost use Rattle.std.specs.Prelude.{◌≡◌, ◌+◌, eqb};
ghost use Rattle.standard_path.specs.Meta.{seg0_len};
ghost use Rattle.fields.specs.Fields.{peering};
ghost use Rattle.standard_path.specs.Header.{info_field};
ghost use Rattle.edition.specs.Edition.{edition_of, two_segments, peering_form, peering_path, first_peering_hop, peering_hop};
ghost use Rattle.edition.specs.Edition.{flagged, peering_placed, peering_fits};

use standard_path::view;

// `First` is the Rust's step: P has no meaning. `Second` has the draft's rule for peering paths. In the step edition and path stay
// two parameters: a struct of both would be lent once to be read and once to be moved, and is no plainer.
#[derive(Clone, Copy)]
pub enum Edition {
    First,
    Second,
}

// For callers that know no enum of Rattle.
impl From<bool> for Edition {
    ghost from_gives = { λ is_second edition. edition ≡ edition_of is_second };

    fn from(is_second: bool) -> Edition {
        if is_second {
            Edition::Second
        } else {
            Edition::First
        }
    }
}

// ---- peering paths

fn has_two_segments(path: &[u8]) -> bool
    ensures { result ≡ two_segments path.now }
{
    view::seg0_len(path) != 0 && view::seg1_len(path) != 0 && view::seg2_len(path) == 0
}

fn is_peering(path: &[u8], info: u8) -> bool
    ensures { result ≡ peering (info_field path.now info) }
{
    fields::peering(view::info_field(path, info))
}

#[tactic(auto, unfolding(crate::specs::Edition::peering_form))]
fn has_peering_form(path: &[u8]) -> bool
    ensures { result ≡ peering_form path.now }
{
    has_two_segments(path) && is_peering(path, 0) && is_peering(path, 1)
}

// In the first edition no path is one.
pub fn is_peering_path(edition: Edition, path: &[u8]) -> bool
    ensures { result ≡ peering_path edition path.now }
{
    match edition {
        Edition::First => false,
        Edition::Second => has_peering_form(path),
    }
}

// ---- peering hops. In the first edition nothing of the path is read

// Whether the hop is the first segment's last.
fn ends_first_segment(path: &[u8], hop: u8) -> bool
    ensures { result ≡ eqb (hop + 1) (seg0_len path.now) }
{
    u16::from(hop) + 1 == u16::from(view::seg0_len(path))
}

// The first of the two: egress there moves CurrINF too.
pub fn is_first_peering_hop(edition: Edition, path: &[u8], hop: u8) -> bool
    ensures { result ≡ first_peering_hop edition path.now hop }
{
    is_peering_path(edition, path) && ends_first_segment(path, hop)
}

pub fn is_peering_hop(edition: Edition, path: &[u8], hop: u8) -> bool
    ensures { result ≡ peering_hop edition path.now hop }
{
    is_peering_path(edition, path) && (ends_first_segment(path, hop) || hop == view::seg0_len(path))
}

// ---- question 28

fn is_flagged(path: &[u8], info: u8) -> bool
    ensures { result ≡ flagged path.now info }
{
    info < view::info_field_count(path) && is_peering(path, info)
}

#[tactic(auto, unfolding(crate::specs::Edition::peering_placed))]
fn is_peering_placed(path: &[u8]) -> bool
    ensures { result ≡ peering_placed path.now }
{
    has_peering_form(path) || !(0..3).any(|info| is_flagged(path, info))
}

// Its rule; the first edition has none.
pub fn peering_fits(edition: Edition, path: &[u8]) -> bool
    ensures { result ≡ peering_fits edition path.now }
{
    match edition {
        Edition::First => true,
        Edition::Second => is_peering_placed(path),
    }
}
