// A path turned around in place, on all inputs.
//
// Ported from `try_reverse` in crates/libs/sciparse/src/proto/dataplane_path/standard/view.rs of Anapaya/scion-sdk at commit
// 866faf5ba3, and changed: rewritten in Rattle, with contracts; a view is a slice of bytes; the error has a variant for each cause.
// Copyright 2026 Anapaya Systems
// Licensed under the Apache License, Version 2.0: see NOTICE.
#![tactic(auto)]

ghost use Rattle.std.specs.Prelude.{◌≡◌, Ok, Err};
ghost use Rattle.reverse.specs.Reverse.{reverse_number, reverse_answer, reversed, bytes_left, reverse_bytes};
ghost use Rattle.reverse.specs.declared.PathReverseError.TheVariants.{HeaderFailed};

use reverse_parts::{reverse_parts, swap_lengths};
use standard_path::view;
use standard_path::view::HeaderError;

// Why a path is not turned around: 01's answers 2, 3, 4, 20, 21 and 22.
#[derive(Clone, Copy)]
pub enum PathReverseError {
    HeaderFailed(HeaderError),
    NoSegments,
    HopOutOfBounds,
    InfoOutOfBounds,
}

impl From<HeaderError> for PathReverseError {
    ghost from_gives = { λ why r. r ≡ HeaderFailed why };

    fn from(why: HeaderError) -> PathReverseError {
        PathReverseError::HeaderFailed(why)
    }
}

// 01's number of an error: one view of it, asked for by that word, so a function and no `From`.
pub fn reverse_number(error: PathReverseError) -> u8
    ensures { result ≡ reverse_number error }
{
    match error {
        PathReverseError::HeaderFailed(error) => view::header_number(error),
        PathReverseError::NoSegments => 20,
        PathReverseError::HopOutOfBounds => 21,
        PathReverseError::InfoOutOfBounds => 22,
    }
}

// 01's questions 2, 3 and 4, then 20, 21 and 22.
#[tactic(auto, using(crate::proofs::Reversible::header_answers), unfolding(questions::specs::Questions::asks))]
fn answer(path: &[u8]) -> Result<(), PathReverseError>
    ensures { result ≡ reverse_answer path.now }
{
    view::check_header(path)?;
    if view::seg0_len(path) == 0 {
        return Err(PathReverseError::NoSegments);
    }
    if view::hop_field_count(path) <= view::curr_hop_field_idx(path) {
        return Err(PathReverseError::HopOutOfBounds);
    }
    if segments::segment_count(path) <= view::curr_info_field_idx(path) {
        return Err(PathReverseError::InfoOutOfBounds);
    }
    Ok(())
}

#[tactic(auto, using(crate::proofs::Reversible::reversible_path), unfolding(crate::specs::Reverse::reversed))]
fn turn_around(path: &mut [u8])
    requires { reverse_answer path.old ≡ Ok tt }
    ensures { path.new ≡ reversed path.old }
{
    let infos = view::info_field_count(path);
    let hops = view::hop_field_count(path);
    let new_hop = hops - 1 - view::curr_hop_field_idx(path);
    let new_info = segments::segment_count(path) - 1 - view::curr_info_field_idx(path);
    swap_lengths(path);
    reverse_parts(path, infos, hops);
    view::set_curr_hop_field(path, new_hop);
    view::set_curr_info_field(path, new_info);
}

// What an error leaves. An index out of bounds leaves the lengths swapped: the Rust asks for it after that.
#[tactic(auto, unfolding(crate::specs::Reverse::bytes_left))]
fn leave(path: &mut [u8], error: PathReverseError)
    ensures { path.new ≡ bytes_left (Err error) path.old }
{
    match error {
        PathReverseError::HeaderFailed(_) | PathReverseError::NoSegments => {}
        PathReverseError::HopOutOfBounds | PathReverseError::InfoOutOfBounds => swap_lengths(path),
    }
}

// Turns the path around, with the position in it kept.
#[tactic(auto, unfolding(crate::specs::Reverse::bytes_left, crate::specs::Reverse::reverse_bytes))]
pub fn try_reverse(path: &mut [u8]) -> Result<(), PathReverseError>
    ensures answer { result ≡ reverse_answer path.old }
    ensures bytes { path.new ≡ reverse_bytes path.old }
{
    let answer = answer(path);
    match answer {
        Ok(()) => turn_around(path),
        Err(error) => leave(path, error),
    }
    answer
}
