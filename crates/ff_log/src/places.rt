//! Places in texts, written `X,Y,W`.
ghost use Rattle.std.specs.Prelude.{◌≡◌, ◌==◌, ◌<◌, IfOk, map};
ghost use Rattle.std.specs.List.{slice_split};
ghost use Rattle.ff_whole.specs.declared.sizes.TheConstants.{PLACE_SIZE as place_size};
ghost use Rattle.ff_log.specs.Numbers.{signed_of};
ghost use Rattle.ff_log.specs.Reading.{place_by, place_of, weight as weight_of};

use crate::numbers::wide_number;
use ff_whole::{PLACE_SIZE, PLACE_WEIGHT, Place};
use std::alloc::{AllocError, Global};

// A coordinate: a whole number below `PLACE_SIZE` in size.
fn coordinate(text: &str) -> Option<i128>
    ensures { result ≡ signed_of place_size text.now }
{
    match text.strip_prefix('-') {
        Some(digits) => match wide_number(digits, PLACE_SIZE)? {
            0 => None,
            n => Some(-(n as i128)),
        },
        None => Some(wide_number(text, PLACE_SIZE)? as i128),
    }
}

// A weight: a whole number from 1 on, below `PLACE_WEIGHT`.
fn weight(text: &str) -> Option<i128>
    ensures { result ≡ weight_of text.now }
{
    match wide_number(text, PLACE_WEIGHT)? {
        0 => None,
        n => Some(n as i128),
    }
}

#[tactic(auto, using(crate::proofs::Others::place_other))]
fn place_in(parts: &[&str]) -> Option<Place>
    ensures { result ≡ place_by (map (λ s. s.now) parts.now) }
{
    match parts {
        [x, y, w] => Some(Place {
            x: coordinate(x)?,
            y: coordinate(y)?,
            w: weight(w)?,
        }),
        _ => None,
    }
}

/// The parts of a text between the separators.
pub(crate) fn pieces(alloc: Global, text: &str, separator: char) -> Result<Vec<&str>, AllocError>
    requires { separator < 128 }
    ensures { IfOk result (λ v. map (λ s. s.now) v.items ≡ slice_split (λ b. b == separator) text.now) }
{
    text.split(separator).collect(alloc)
}

/// The place that the text spells.
pub(crate) fn read_place(alloc: Global, text: &str) -> Result<Option<Place>, AllocError>
    ensures { IfOk result (λ p. p ≡ place_of text.now) }
{
    Ok(place_in(pieces(alloc, text, ',')?.as_slice()))
}
