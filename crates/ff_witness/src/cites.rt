//! The constraint that a cite declares.
ghost use Rattle.std.specs.Prelude.{◌≡◌, ◌<◌, ◌↔◌, IsTrue, MatchOption, length, ℕ, Some, [], ◌∷◌};
ghost use Rattle.std.specs.List.{All};
ghost use Rattle.ff_whole.specs.Sizes.{IsSmallPlace};
ghost use Rattle.ff_types.specs.FoldedPatterns.{IsFoldedPattern};
ghost use Rattle.ff_types.specs.Sheets.{sheet_of};
ghost use Rattle.ff_types.specs.Cites.{HasSmallPlaces, Witnessed, lesser, greater};
ghost use Rattle.ff_types.specs.Terms.{kind_of, terms_of};
ghost use Rattle.ff_types.specs.declared.cites.Cite.TheVariants.{Transitivity, TacoTaco, TacoFace, TacoEdge, FlatFace, FlatEdge};
ghost use Rattle.ff_log.specs.Grounds.{UsesOn, crease_on, crease_claim as mark_claim};
ghost use Rattle.ff_witness.specs.Witnessing.{is_up_in, HasEdges};

use crate::edges::{are_on, do_share};
use crate::witness::is_witness;
use arrayvec::ArrayVec;
use ff_log::{Claim, Declared, FacePairs};
use ff_tables::Kind;
use ff_tacos::{faces_beside, is_flat, is_folded, matching};
use ff_types::{Cite, Faces, Folded, Mark, Pattern};
use ff_whole::Place;

// Whether three faces have the places as a witness.
fn is_common(
    pattern: &Pattern,
    faces: &Faces,
    folded: &Folded,
    three: (u32, u32, u32),
    at: &[Place],
) -> bool
    requires folded { IsFoldedPattern pattern.now faces.now folded.now }
    requires small { All IsSmallPlace at.now }
    ensures { IsTrue result ↔ Witnessed (sheet_of pattern.now faces.now folded.now) (Transitivity three.0 three.1 three.2 at.now) }
{
    let (f, g, h) = three;
    if f >= g || g >= h {
        return false;
    }
    if !is_witness(pattern, faces, folded, f, at) {
        return false;
    }
    if !is_witness(pattern, faces, folded, g, at) {
        return false;
    }
    is_witness(pattern, faces, folded, h, at)
}

fn is_taco_taco(pattern: &Pattern, faces: &Faces, folded: &Folded, e: u32, e2: u32) -> bool
    requires folded { IsFoldedPattern pattern.now faces.now folded.now }
    ensures { IsTrue result ↔ Witnessed (sheet_of pattern.now faces.now folded.now) (TacoTaco e e2) }
{
    if e >= e2 || e2 as usize >= pattern.edges.as_slice().len() {
        return false;
    }
    if !is_folded(pattern, faces, folded, e) {
        return false;
    }
    if !is_folded(pattern, faces, folded, e2) {
        return false;
    }
    do_share(pattern, faces, folded, e, e2)
}

fn is_taco_face(
    pattern: &Pattern,
    faces: &Faces,
    folded: &Folded,
    e: u32,
    face: u32,
    at: &[Place],
) -> bool
    requires folded { IsFoldedPattern pattern.now faces.now folded.now }
    requires small { All IsSmallPlace at.now }
    ensures { IsTrue result ↔ Witnessed (sheet_of pattern.now faces.now folded.now) (TacoFace e face at.now) }
{
    if e as usize >= pattern.edges.as_slice().len() {
        return false;
    }
    if !is_folded(pattern, faces, folded, e) {
        return false;
    }
    if !are_on(pattern, faces, folded, e, at) {
        return false;
    }
    is_witness(pattern, faces, folded, face, at)
}

fn is_flat_face(
    pattern: &Pattern,
    faces: &Faces,
    folded: &Folded,
    flat: u32,
    face: u32,
    at: &[Place],
) -> bool
    requires folded { IsFoldedPattern pattern.now faces.now folded.now }
    requires small { All IsSmallPlace at.now }
    ensures { IsTrue result ↔ Witnessed (sheet_of pattern.now faces.now folded.now) (FlatFace flat face at.now) }
{
    if flat as usize >= pattern.edges.as_slice().len() {
        return false;
    }
    if !is_flat(pattern, faces, folded, flat) {
        return false;
    }
    if !are_on(pattern, faces, folded, flat, at) {
        return false;
    }
    is_witness(pattern, faces, folded, face, at)
}

fn is_taco_edge(pattern: &Pattern, faces: &Faces, folded: &Folded, e: u32, flat: u32) -> bool
    requires folded { IsFoldedPattern pattern.now faces.now folded.now }
    ensures { IsTrue result ↔ Witnessed (sheet_of pattern.now faces.now folded.now) (TacoEdge e flat) }
{
    let count = pattern.edges.as_slice().len();
    if e as usize >= count || flat as usize >= count {
        return false;
    }
    if !is_folded(pattern, faces, folded, e) {
        return false;
    }
    if !is_flat(pattern, faces, folded, flat) {
        return false;
    }
    if e < flat {
        return do_share(pattern, faces, folded, e, flat);
    }
    flat < e && do_share(pattern, faces, folded, flat, e)
}

fn is_flat_edges(pattern: &Pattern, faces: &Faces, folded: &Folded, flat: u32, flat2: u32) -> bool
    requires folded { IsFoldedPattern pattern.now faces.now folded.now }
    ensures { IsTrue result ↔ Witnessed (sheet_of pattern.now faces.now folded.now) (FlatEdge flat flat2) }
{
    if flat >= flat2 || flat2 as usize >= pattern.edges.as_slice().len() {
        return false;
    }
    if !is_flat(pattern, faces, folded, flat) {
        return false;
    }
    if !is_flat(pattern, faces, folded, flat2) {
        return false;
    }
    do_share(pattern, faces, folded, flat, flat2)
}

fn is_witnessed(pattern: &Pattern, faces: &Faces, folded: &Folded, cite: &Cite) -> bool
    requires folded { IsFoldedPattern pattern.now faces.now folded.now }
    requires small { HasSmallPlaces cite.now }
    ensures { IsTrue result ↔ Witnessed (sheet_of pattern.now faces.now folded.now) cite.now }
{
    match cite {
        Cite::Transitivity { f, g, h, at } => is_common(pattern, faces, folded, (*f, *g, *h), at),
        Cite::TacoTaco { e, e2 } => is_taco_taco(pattern, faces, folded, *e, *e2),
        Cite::TacoFace { e, face, at } => is_taco_face(pattern, faces, folded, *e, *face, at),
        Cite::TacoEdge { e, flat } => is_taco_edge(pattern, faces, folded, *e, *flat),
        Cite::FlatFace { flat, face, at } => {
            is_flat_face(pattern, faces, folded, *flat, *face, at)
        },
        Cite::FlatEdge { flat, flat2 } => is_flat_edges(pattern, faces, folded, *flat, *flat2),
    }
}

fn two_terms(first: (u32, u32), second: (u32, u32)) -> FacePairs
    ensures { result ≡ first ∷ second ∷ [] }
{
    let mut terms: ArrayVec<(u32, u32), 6> = ArrayVec::new();
    terms.push(first);
    terms.push(second);
    FacePairs::of(terms)
}

fn three_terms(f: u32, g: u32, h: u32) -> FacePairs
    ensures { result ≡ (f, g) ∷ (f, h) ∷ (g, h) ∷ [] }
{
    let mut terms: ArrayVec<(u32, u32), 6> = ArrayVec::new();
    terms.push((f, g));
    terms.push((f, h));
    terms.push((g, h));
    FacePairs::of(terms)
}

// The terms of each two of the four faces.
fn six_terms(first: (u32, u32), second: (u32, u32)) -> FacePairs
    ensures { result ≡ (first.0, first.1) ∷ (first.0, second.0) ∷ (first.0, second.1) ∷ (first.1, second.0) ∷
        (first.1, second.1) ∷ (second.0, second.1) ∷ [] }
{
    let mut terms: ArrayVec<(u32, u32), 6> = ArrayVec::new();
    terms.push((first.0, first.1));
    terms.push((first.0, second.0));
    terms.push((first.0, second.1));
    terms.push((first.1, second.0));
    terms.push((first.1, second.1));
    terms.push((second.0, second.1));
    FacePairs::of(terms)
}

// The terms of the two faces of the edge with the face.
fn with_face(pattern: &Pattern, faces: &Faces, folded: &Folded, e: u32, face: u32) -> FacePairs
    requires folded { IsFoldedPattern pattern.now faces.now folded.now }
    requires edge { e < length pattern.now.edges }
    ensures { result ≡ (lesser (sheet_of pattern.now faces.now folded.now) e, face) ∷
        (greater (sheet_of pattern.now faces.now folded.now) e, face) ∷ [] }
{
    let (lesser, greater) = faces_beside(pattern, faces, folded, e);
    two_terms((lesser, face), (greater, face))
}

// The terms of a cite that is witnessed.
fn terms_of_cite(pattern: &Pattern, faces: &Faces, folded: &Folded, cite: &Cite) -> FacePairs
    requires folded { IsFoldedPattern pattern.now faces.now folded.now }
    requires edges { HasEdges (length pattern.now.edges) cite.now }
    ensures { result ≡ terms_of (sheet_of pattern.now faces.now folded.now) cite.now }
{
    match cite {
        Cite::Transitivity { f, g, h, .. } => three_terms(*f, *g, *h),
        Cite::TacoTaco { e, e2 } => six_terms(
            faces_beside(pattern, faces, folded, *e),
            faces_beside(pattern, faces, folded, *e2),
        ),
        Cite::TacoFace { e, face, .. } => with_face(pattern, faces, folded, *e, *face),
        Cite::TacoEdge { e, flat } => {
            let (face, _) = matching(pattern, faces, folded, *e, *flat);
            with_face(pattern, faces, folded, *e, face)
        },
        Cite::FlatFace { flat, face, .. } => with_face(pattern, faces, folded, *flat, *face),
        Cite::FlatEdge { flat, flat2 } => {
            let (lesser, greater) = faces_beside(pattern, faces, folded, *flat);
            let (face, other) = matching(pattern, faces, folded, *flat, *flat2);
            two_terms((lesser, face), (greater, other))
        },
    }
}

fn kind_of_cite(cite: &Cite) -> Kind
    ensures { result ≡ kind_of cite.now }
{
    match cite {
        Cite::Transitivity { .. } => Kind::Transitivity,
        Cite::TacoTaco { .. } => Kind::TacoTaco,
        Cite::TacoFace { .. } | Cite::TacoEdge { .. } => Kind::TacoTortilla,
        Cite::FlatFace { .. } | Cite::FlatEdge { .. } => Kind::TortillaTortilla,
    }
}

/// The constraint that the cite declares. None exactly where the cite has no witness on the folded points.
pub fn declared_by(
    pattern: &Pattern,
    faces: &Faces,
    folded: &Folded,
    cite: &Cite,
) -> Option<Declared>
    requires folded { IsFoldedPattern pattern.now faces.now folded.now }
    requires small { HasSmallPlaces cite.now }
    ensures { MatchOption result (Witnessed (sheet_of pattern.now faces.now folded.now) cite.now → ⊥)
        (UsesOn (sheet_of pattern.now faces.now folded.now) cite.now) }
{
    if !is_witnessed(pattern, faces, folded, cite) {
        return None;
    }
    Some(Declared {
        kind: kind_of_cite(cite),
        terms: terms_of_cite(pattern, faces, folded, cite),
    })
}

// What the mark says of the faces left and right of an edge, of which the left one is up or not.
fn claim_of_mark(mark: Mark, up: bool, left: Option<u32>, right: Option<u32>) -> Option<Claim>
    ensures { result ≡ mark_claim mark up left right }
{
    let (Some(f), Some(h)) = (left, right) else {
        return None;
    };
    match (mark, up) {
        (Mark::V, true) | (Mark::M, false) => Some(Claim { upper: h, lower: f }),
        (Mark::V, false) | (Mark::M, true) => Some(Claim { upper: f, lower: h }),
        _ => None,
    }
}

// Whether the face is up.
fn is_up(flags: &[bool], face: Option<u32>) -> bool
    requires { (f : ℕ) → face ≡ Some f → f < length flags.now }
    ensures { result ≡ is_up_in flags.now face }
{
    match face {
        Some(f) => flags[f as usize],
        None => true,
    }
}

/// What the mark M or V of the edge says. None exactly where it isn't an edge with such a mark.
pub fn crease_claim(pattern: &Pattern, faces: &Faces, folded: &Folded, e: u32) -> Option<Claim>
    requires { IsFoldedPattern pattern.now faces.now folded.now }
    ensures { result ≡ crease_on (sheet_of pattern.now faces.now folded.now) e }
{
    if e as usize >= pattern.edges.as_slice().len() {
        return None;
    }
    let sides = faces.sides.as_slice()[e as usize];
    let up = is_up(folded.up.as_slice(), sides.left);
    claim_of_mark(
        faces.marks.as_slice()[e as usize],
        up,
        sides.left,
        sides.right,
    )
}
