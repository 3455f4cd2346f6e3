//! Cites in the words of a line.
ghost use Rattle.std.specs.Prelude.{◌≡◌, IfOk, map, Some};
ghost use Rattle.ff_types.specs.declared.cites.Cite.TheVariants.{TacoTaco as tacos};
ghost use Rattle.ff_log.specs.Reading.{two_numbers, three_at, three_words, transitivity_by, face_at, face_words, edge_at, edge_words, beside_by, taco_cite, flat_cite, cite_words_by, cite_by};

use crate::numbers::number;
use crate::places::read_place;
use ff_types::Cite;
use ff_whole::Place;
use std::alloc::{AllocError, Global};

/// What runs into or along an edge: a face that has a part of the edge inside, or another edge.
#[derive(Clone, Copy)]
pub(crate) enum Beside {
    Face { e: u32, face: u32, at: [Place; 2] },
    Edge { e: u32, other: u32 },
}

fn tacos_in(words: &[&str]) -> Option<Cite>
    ensures { result ≡ two_numbers (λ e k. tacos e k) (map (λ s. s.now) words.now) }
{
    match words {
        [e, e2] => Some(Cite::TacoTaco {
            e: number(e)?,
            e2: number(e2)?,
        }),
        _ => None,
    }
}

// The cite of three faces with a common place.
fn three_of(
    faces: (&str, &str, &str),
    a: Option<Place>,
    b: Option<Place>,
    c: Option<Place>,
) -> Option<Cite>
    ensures { result ≡ three_at faces.entry.0.now faces.entry.1.now faces.entry.2.now a b c }
{
    Some(Cite::Transitivity {
        f: number(faces.0)?,
        g: number(faces.1)?,
        h: number(faces.2)?,
        at: [a?, b?, c?],
    })
}

fn three_in(
    alloc: Global,
    faces: (&str, &str, &str),
    word: &str,
    places: (&str, &str, &str),
) -> Result<Option<Cite>, AllocError>
    ensures { IfOk result (λ c. c ≡ three_words faces.entry.0.now faces.entry.1.now faces.entry.2.now word.now
        places.entry.0.now places.entry.1.now places.entry.2.now) }
{
    if word != "at" {
        return Ok(None);
    }
    let a = read_place(alloc, places.0)?;
    let b = read_place(alloc, places.1)?;
    let c = read_place(alloc, places.2)?;
    Ok(three_of(faces, a, b, c))
}

#[tactic(auto, using(crate::proofs::Others::three_other))]
fn transitivity_in(alloc: Global, words: &[&str]) -> Result<Option<Cite>, AllocError>
    ensures { IfOk result (λ c. c ≡ transitivity_by (map (λ s. s.now) words.now)) }
{
    match words {
        [f, g, h, word, a, b, c] => three_in(alloc, (f, g, h), word, (a, b, c)),
        _ => Ok(None),
    }
}

fn edge_of(e: &str, other: &str) -> Option<Beside>
    ensures { result ≡ edge_at e.now other.now }
{
    Some(Beside::Edge {
        e: number(e)?,
        other: number(other)?,
    })
}

fn edge_in(e: &str, word: &str, other: &str) -> Option<Beside>
    ensures { result ≡ edge_words e.now word.now other.now }
{
    if word != "edge" {
        return None;
    }
    edge_of(e, other)
}

fn face_of(e: &str, face: &str, a: Option<Place>, b: Option<Place>) -> Option<Beside>
    ensures { result ≡ face_at e.now face.now a b }
{
    Some(Beside::Face {
        e: number(e)?,
        face: number(face)?,
        at: [a?, b?],
    })
}

fn face_in(
    alloc: Global,
    e: &str,
    word: &str,
    face: &str,
    word2: &str,
    places: (&str, &str),
) -> Result<Option<Beside>, AllocError>
    ensures { IfOk result (λ b. b ≡ face_words e.now word.now face.now word2.now places.entry.0.now places.entry.1.now) }
{
    if word != "face" || word2 != "at" {
        return Ok(None);
    }
    let a = read_place(alloc, places.0)?;
    let b = read_place(alloc, places.1)?;
    Ok(face_of(e, face, a, b))
}

#[tactic(auto, using(crate::proofs::Others::beside_other))]
fn beside_in(alloc: Global, words: &[&str]) -> Result<Option<Beside>, AllocError>
    ensures { IfOk result (λ b. b ≡ beside_by (map (λ s. s.now) words.now)) }
{
    match words {
        [e, word, other] => Ok(edge_in(e, word, other)),
        [e, word, face, word2, a, b] => face_in(alloc, e, word, face, word2, (a, b)),
        _ => Ok(None),
    }
}

// The cite of a folded edge.
fn taco_of(beside: Beside) -> Cite
    ensures { result ≡ taco_cite beside }
{
    match beside {
        Beside::Face { e, face, at } => Cite::TacoFace { e, face, at },
        Beside::Edge { e, other } => Cite::TacoEdge { e, flat: other },
    }
}

// The cite of a flat edge.
fn flat_of(beside: Beside) -> Cite
    ensures { result ≡ flat_cite beside }
{
    match beside {
        Beside::Face { e, face, at } => Cite::FlatFace { flat: e, face, at },
        Beside::Edge { e, other } => Cite::FlatEdge {
            flat: e,
            flat2: other,
        },
    }
}

fn cite_at(alloc: Global, head: &str, rest: &[&str]) -> Result<Option<Cite>, AllocError>
    ensures { IfOk result (λ c. c ≡ cite_words_by head.now (map (λ s. s.now) rest.now)) }
{
    match head {
        "transitivity" => transitivity_in(alloc, rest),
        "taco-taco" => Ok(tacos_in(rest)),
        "taco-tortilla" => Ok(beside_in(alloc, rest)?.map(|b| taco_of(b))),
        "tortilla-tortilla" => Ok(beside_in(alloc, rest)?.map(|b| flat_of(b))),
        _ => Ok(None),
    }
}

/// The cite that the words spell.
#[tactic(auto, using(crate::proofs::Others::cite_empty, crate::proofs::Others::cite_more))]
pub(crate) fn cite_in(alloc: Global, words: &[&str]) -> Result<Option<Cite>, AllocError>
    ensures { IfOk result (λ c. c ≡ cite_by (map (λ s. s.now) words.now)) }
{
    match words {
        [head, rest @ ..] => cite_at(alloc, head, rest),
        [] => Ok(None),
    }
}
