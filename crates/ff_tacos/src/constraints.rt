//! The constraints, family by family.
ghost use Rattle.std.specs.Prelude.{◌≡◌, ◌<◌, length, [], ◌∷◌, map, option_map};
ghost use Rattle.ff_types.specs.declared.cites.Cite.TheVariants.{TacoEdge};
ghost use Rattle.ff_types.specs.FoldedPatterns.{IsFoldedPattern};
ghost use Rattle.ff_types.specs.Sheets.{sheet_of};
ghost use Rattle.ff_types.specs.Cites.{lesser, greater};
ghost use Rattle.ff_tacos.specs.Making.{term_of, listed_of, taco_taco as gives_taco_taco, taco_face as gives_taco_face, flat_face as gives_flat_face, flat_edge as gives_flat_edge};

use crate::beside::{beside, is_flat, is_folded, matching};
use arrayvec::ArrayVec;
use ff_edges::{EdgeFace, EdgePair};
use ff_tables::{Constraint, Kind, Term, Terms};
use ff_types::{Cite, Faces, Folded, Listed, Pairs, Pattern};

// The term of the pair of `p` and `q`, which has a number.
fn term(pairs: &Pairs, p: u32, q: u32) -> Term
    ensures { result ≡ term_of pairs.now (p, q) }
{
    Term {
        var: pairs.number(p, q).unwrap_or(0),
        flipped: q < p,
    }
}

fn two_terms(pairs: &Pairs, first: (u32, u32), second: (u32, u32)) -> Terms
    ensures { result ≡ map (term_of pairs.now) (first ∷ second ∷ []) }
{
    let mut terms: ArrayVec<Term, 6> = ArrayVec::new();
    terms.push(term(pairs, first.0, first.1));
    terms.push(term(pairs, second.0, second.1));
    Terms::of(terms)
}

// The terms of each two of the four faces.
fn six_terms(pairs: &Pairs, first: (u32, u32), second: (u32, u32)) -> Terms
    ensures { result ≡ map (term_of pairs.now)
        ((first.0, first.1) ∷ (first.0, second.0) ∷ (first.0, second.1) ∷ (first.1, second.0) ∷
        (first.1, second.1) ∷ (second.0, second.1) ∷ []) }
{
    let mut terms: ArrayVec<Term, 6> = ArrayVec::new();
    terms.push(term(pairs, first.0, first.1));
    terms.push(term(pairs, first.0, second.0));
    terms.push(term(pairs, first.0, second.1));
    terms.push(term(pairs, first.1, second.0));
    terms.push(term(pairs, first.1, second.1));
    terms.push(term(pairs, second.0, second.1));
    Terms::of(terms)
}

/// The constraint of two edges that share a segment, if both are folded. All four faces are then on one side.
pub fn taco_taco(
    pattern: &Pattern,
    faces: &Faces,
    folded: &Folded,
    pairs: &Pairs,
    pair: &EdgePair,
) -> Option<Listed>
    requires folded { IsFoldedPattern pattern.now faces.now folded.now }
    requires first { pair.now.e < length pattern.now.edges }
    requires second { pair.now.e2 < length pattern.now.edges }
    ensures { result ≡ option_map (listed_of (sheet_of pattern.now faces.now folded.now) pairs.now)
        (gives_taco_taco (sheet_of pattern.now faces.now folded.now) pair.now) }
{
    if !is_folded(pattern, faces, folded, pair.e) || !is_folded(pattern, faces, folded, pair.e2) {
        return None;
    }
    let first = beside(pattern, faces, folded, pair.e);
    let second = beside(pattern, faces, folded, pair.e2);
    Some(Listed {
        constraint: Constraint {
            kind: Kind::TacoTaco,
            terms: six_terms(pairs, first, second),
        },
        cite: Cite::TacoTaco {
            e: pair.e,
            e2: pair.e2,
        },
    })
}

// The terms of the two faces of the edge with the face.
fn with_face(
    pattern: &Pattern,
    faces: &Faces,
    folded: &Folded,
    pairs: &Pairs,
    e: u32,
    face: u32,
) -> Terms
    requires folded { IsFoldedPattern pattern.now faces.now folded.now }
    requires edge { e < length pattern.now.edges }
    ensures { result ≡ map (term_of pairs.now)
        ((lesser (sheet_of pattern.now faces.now folded.now) e, face) ∷
        (greater (sheet_of pattern.now faces.now folded.now) e, face) ∷ []) }
{
    let (lesser, greater) = beside(pattern, faces, folded, e);
    two_terms(pairs, (lesser, face), (greater, face))
}

/// The constraint of an edge with a part inside a face, if it is folded.
pub fn taco_face(
    pattern: &Pattern,
    faces: &Faces,
    folded: &Folded,
    pairs: &Pairs,
    found: &EdgeFace,
) -> Option<Listed>
    requires folded { IsFoldedPattern pattern.now faces.now folded.now }
    requires edge { found.now.e < length pattern.now.edges }
    ensures { result ≡ option_map (listed_of (sheet_of pattern.now faces.now folded.now) pairs.now)
        (gives_taco_face (sheet_of pattern.now faces.now folded.now) found.now) }
{
    if !is_folded(pattern, faces, folded, found.e) {
        return None;
    }
    Some(Listed {
        constraint: Constraint {
            kind: Kind::TacoTortilla,
            terms: with_face(pattern, faces, folded, pairs, found.e, found.face),
        },
        cite: Cite::TacoFace {
            e: found.e,
            face: found.face,
            at: found.at,
        },
    })
}

/// The constraint of a folded and a flat edge that share a segment.
pub fn taco_edge(
    pattern: &Pattern,
    faces: &Faces,
    folded: &Folded,
    pairs: &Pairs,
    e: u32,
    flat: u32,
) -> Listed
    requires folded { IsFoldedPattern pattern.now faces.now folded.now }
    requires first { e < length pattern.now.edges }
    requires second { flat < length pattern.now.edges }
    ensures { result ≡ listed_of (sheet_of pattern.now faces.now folded.now) pairs.now (TacoEdge e flat) }
{
    let (face, _) = matching(pattern, faces, folded, e, flat);
    Listed {
        constraint: Constraint {
            kind: Kind::TacoTortilla,
            terms: with_face(pattern, faces, folded, pairs, e, face),
        },
        cite: Cite::TacoEdge { e, flat },
    }
}

/// The constraint of an edge with a part inside a face, if it is flat.
pub fn flat_face(
    pattern: &Pattern,
    faces: &Faces,
    folded: &Folded,
    pairs: &Pairs,
    found: &EdgeFace,
) -> Option<Listed>
    requires folded { IsFoldedPattern pattern.now faces.now folded.now }
    requires edge { found.now.e < length pattern.now.edges }
    ensures { result ≡ option_map (listed_of (sheet_of pattern.now faces.now folded.now) pairs.now)
        (gives_flat_face (sheet_of pattern.now faces.now folded.now) found.now) }
{
    if !is_flat(pattern, faces, folded, found.e) {
        return None;
    }
    Some(Listed {
        constraint: Constraint {
            kind: Kind::TortillaTortilla,
            terms: with_face(pattern, faces, folded, pairs, found.e, found.face),
        },
        cite: Cite::FlatFace {
            flat: found.e,
            face: found.face,
            at: found.at,
        },
    })
}

/// The constraint of two edges that share a segment, if both are flat.
pub fn flat_edge(
    pattern: &Pattern,
    faces: &Faces,
    folded: &Folded,
    pairs: &Pairs,
    pair: &EdgePair,
) -> Option<Listed>
    requires folded { IsFoldedPattern pattern.now faces.now folded.now }
    requires first { pair.now.e < length pattern.now.edges }
    requires second { pair.now.e2 < length pattern.now.edges }
    ensures { result ≡ option_map (listed_of (sheet_of pattern.now faces.now folded.now) pairs.now)
        (gives_flat_edge (sheet_of pattern.now faces.now folded.now) pair.now) }
{
    if !is_flat(pattern, faces, folded, pair.e) || !is_flat(pattern, faces, folded, pair.e2) {
        return None;
    }
    let (lesser, greater) = beside(pattern, faces, folded, pair.e);
    let (face, other) = matching(pattern, faces, folded, pair.e, pair.e2);
    Some(Listed {
        constraint: Constraint {
            kind: Kind::TortillaTortilla,
            terms: two_terms(pairs, (lesser, face), (greater, other)),
        },
        cite: Cite::FlatEdge {
            flat: pair.e,
            flat2: pair.e2,
        },
    })
}
