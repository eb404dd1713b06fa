// What is asked of an itinerary's size and of one record by itself, on all inputs.
//
// Questions are joined by `&`: a plan is nearly always sound.
#![tactic(auto)]

ghost use Rattle.std.specs.Prelude.{◌≡◌};
ghost use Rattle.records.specs.Layout.{layout_of};
ghost use Rattle.record_rules.specs.Rules.{size_sound, index_sound, next_sound, are_zero, zeros_sound, head_sound};

use records::Itinerary;
use records::form::Form;
use records::layout::{HeadLayout, InterfaceRecordLayout, StationLayout};

#[tactic(auto, unfolding(crate::specs::Rules::size_sound))]
pub fn is_size_sound(itinerary: Itinerary<'_>) -> bool
    ensures { result ≡ size_sound (layout_of itinerary.entry.form) itinerary.entry.bytes.now }
{
    let count = itinerary.record_count();
    (itinerary.bytes.len() % itinerary.form.layout().record_bytes == 0)
        & (1 <= count)
        & (count <= itinerary.form.layout().max_records)
}

pub fn is_index_sound(itinerary: Itinerary<'_>, index: u32) -> bool
    ensures { result ≡ index_sound (layout_of itinerary.entry.form) itinerary.entry.bytes.now index }
{
    // By `as`: `usize` is not `From<u32>`, and a `try_from` would have an error that never comes.
    (index as usize) < itinerary.record_count()
}

#[tactic(auto, unfolding(crate::specs::Rules::next_sound))]
pub fn is_next_sound(itinerary: Itinerary<'_>, index: u32) -> bool
    ensures { result ≡ next_sound (layout_of itinerary.entry.form) itinerary.entry.bytes.now index }
{
    let next = itinerary.next(index);
    (next == 0) | ((index < next) & is_index_sound(itinerary, next))
}

// ---- the bytes that are named zero
//
// A function for each kind of record. One function that takes ranges would need others to pick them: three again, each with a match on
// the form.

fn are_zero(itinerary: Itinerary<'_>, index: u32, field: u8, count: u8) -> bool
    ensures { result ≡ are_zero (layout_of itinerary.entry.form) itinerary.entry.bytes.now index field count }
{
    let at = itinerary.form.offset(index, field);
    (0..count).all(|i| octets::byte_at(itinerary.bytes, at + usize::from(i)) == 0)
}

#[tactic(auto, unfolding(crate::specs::Rules::zeros_sound, records::specs::Records::every))]
pub fn are_interface_zeros_sound(itinerary: Itinerary<'_>, index: u32) -> bool
    ensures { result ≡ zeros_sound (layout_of itinerary.entry.form) itinerary.entry.bytes.now
        (layout_of itinerary.entry.form).interface_zeros index }
{
    match itinerary.form {
        Form::Narrow => are_zero(
            itinerary,
            index,
            InterfaceRecordLayout::ZEROS,
            InterfaceRecordLayout::ZEROS_BYTES,
        ),
    }
}

#[tactic(auto, unfolding(crate::specs::Rules::zeros_sound, records::specs::Records::every))]
pub fn are_station_zeros_sound(itinerary: Itinerary<'_>, index: u32) -> bool
    ensures { result ≡ zeros_sound (layout_of itinerary.entry.form) itinerary.entry.bytes.now
        (layout_of itinerary.entry.form).station_zeros index }
{
    match itinerary.form {
        Form::Narrow => {
            are_zero(
                itinerary,
                index,
                StationLayout::ZEROS,
                StationLayout::ZEROS_BYTES,
            ) & are_zero(
                itinerary,
                index,
                StationLayout::LAST_ZEROS,
                StationLayout::LAST_ZEROS_BYTES,
            )
        }
    }
}

#[tactic(auto, unfolding(crate::specs::Rules::zeros_sound, records::specs::Records::every))]
fn are_head_zeros_sound(itinerary: Itinerary<'_>) -> bool
    ensures { result ≡ zeros_sound (layout_of itinerary.entry.form) itinerary.entry.bytes.now
        (layout_of itinerary.entry.form).head_zeros 0 }
{
    match itinerary.form {
        Form::Narrow => are_zero(itinerary, 0, HeadLayout::ZEROS, HeadLayout::ZEROS_BYTES),
    }
}

// ---- record 0

#[tactic(auto, unfolding(crate::specs::Rules::head_sound))]
pub fn is_head_sound(itinerary: Itinerary<'_>) -> bool
    ensures { result ≡ head_sound (layout_of itinerary.entry.form) itinerary.entry.bytes.now }
{
    are_head_zeros_sound(itinerary) & is_index_sound(itinerary, itinerary.next(0))
}
