//! The faces that an edge has a part inside of.
ghost use Rattle.std.specs.Prelude.{◌≡◌, ◌≢◌, ◌<◌, ◌≤◌, ◌+◌, ◌*◌, length, IsTrue, IfOk, IfErr, OnOk, MatchOption};
ghost use Rattle.ff_whole.specs.Points.{IsNear};
ghost use Rattle.ff_types.specs.Faces.{ring_at};
ghost use Rattle.ff_types.specs.Foldings.{is_up};
ghost use Rattle.ff_types.specs.FoldedPatterns.{IsFoldedPattern};
ghost use Rattle.ff_types.specs.Sheets.{sheet_of};
ghost use Rattle.ff_types.specs.Segments.{HasEdgeInside};
ghost use Rattle.ff_types.specs.declared.limits.TheConstants.{MOST_CONSTRAINTS as most_constraints};
ghost use Rattle.ff_edges.specs.Clips.{IsPartInside, IsNoneInside};
ghost use Rattle.ff_edges.specs.Extents.{IsExtent, IsRoundEdge, IsRoundFace, AreExtents, AreBlocks};
ghost use Rattle.ff_edges.specs.EdgesInside.{is_inner_edge, IsEdgeFace, AreFacesTo, AreEdgeFaces, AreNoEdgeFaces};

use crate::EdgeFace;
use crate::append::append;
use crate::beside::ends;
use crate::blocks::{BLOCK, block_end, block_extents};
use crate::clips::part_inside;
use crate::common::{earlier, later};
use crate::extents::{Extent, is_beside};
use crate::reaches::{Reach, edge_reach, face_extents};
use crate::shared::is_inner;
use ff_tables::Items;
use ff_types::{Faces, Folded, No, Pattern};
use ff_whole::{Place, Pt};
use std::alloc::Global;

// The ends of what of the way from `p` to `q` is inside the face, the first nearer to `p`. None exactly where no place of
// the way is inside.
fn part_in_face(
    pattern: &Pattern,
    faces: &Faces,
    folded: &Folded,
    f: u32,
    p: Pt,
    q: Pt,
) -> Option<(Place, Place)>
    requires folded { IsFoldedPattern pattern.now faces.now folded.now }
    requires face { f < length faces.now.rings }
    requires p_near { IsNear p }
    requires q_near { IsNear q }
    requires apart { p ≢ q }
    ensures { MatchOption result (IsNoneInside folded.now.points (is_up folded.now.up f) (ring_at faces.now.rings f) p q)
        (λ way. IsPartInside folded.now.points (is_up folded.now.up f) (ring_at faces.now.rings f) (length (ring_at faces.now.rings f)) p q way.0 way.1) }
{
    let _ = pattern.edges.as_slice().len();
    let points = folded.points.as_slice();
    let up = folded.up.as_slice()[f as usize];
    let ring = faces.rings.as_slice()[f as usize].as_slice();
    part_inside(points, up, ring, p, q)
}

// The edge and the face with the ends of the part of the edge's image that is inside the face. None exactly where no part
// of positive length is.
fn edge_face(pattern: &Pattern, faces: &Faces, folded: &Folded, e: u32, f: u32) -> Option<EdgeFace>
    requires folded { IsFoldedPattern pattern.now faces.now folded.now }
    requires edge { e < length pattern.now.edges }
    requires face { f < length faces.now.rings }
    requires inner { IsTrue (is_inner_edge (sheet_of pattern.now faces.now folded.now) e) }
    ensures { MatchOption result (HasEdgeInside (sheet_of pattern.now faces.now folded.now) f e → ⊥)
        (λ c. (c.e ≡ e) × (c.face ≡ f) × IsEdgeFace (sheet_of pattern.now faces.now folded.now) c) }
{
    let (a, b) = ends(pattern, faces, folded, e);
    match part_in_face(pattern, faces, folded, f, earlier(a, b), later(a, b)) {
        Some((first, second)) => Some(EdgeFace {
            e,
            face: f,
            at: [first, second],
        }),
        None => None,
    }
}

// Appends the edge and the face, where the edge has a part inside.
fn append_face(
    list: &mut Vec<EdgeFace>,
    pattern: &Pattern,
    faces: &Faces,
    folded: &Folded,
    e: u32,
    f: u32,
) -> Result<(), No>
    requires folded { IsFoldedPattern pattern.now faces.now folded.now }
    requires edge { e < length pattern.now.edges }
    requires face { f < length faces.now.rings }
    requires inner { IsTrue (is_inner_edge (sheet_of pattern.now faces.now folded.now) e) }
    requires listed { AreFacesTo (sheet_of pattern.now faces.now folded.now) e f list.old.items }
    requires few { length list.old.items ≤ most_constraints }
    ensures listed { OnOk result (AreFacesTo (sheet_of pattern.now faces.now folded.now) e (f + 1) list.new.items) }
    ensures few { OnOk result (length list.new.items ≤ most_constraints) }
    ensures refused { IfErr result (AreNoEdgeFaces (sheet_of pattern.now faces.now folded.now)) }
{
    match edge_face(pattern, faces, folded, e, f) {
        Some(found) => append(list, found),
        None => Ok(()),
    }
}

// Appends the edge with each face of the block that it has a part inside of. Those that it is beside are passed over.
fn append_block(
    list: &mut Vec<EdgeFace>,
    pattern: &Pattern,
    faces: &Faces,
    folded: &Folded,
    extents: &[Extent],
    reach: Reach,
    b: usize,
) -> Result<(), No>
    requires folded { IsFoldedPattern pattern.now faces.now folded.now }
    requires edge { reach.number < length pattern.now.edges }
    requires inner { IsTrue (is_inner_edge (sheet_of pattern.now faces.now folded.now) reach.number) }
    requires reach_extent { IsExtent reach.extent }
    requires reach_round { IsRoundEdge (sheet_of pattern.now faces.now folded.now) reach.number reach.extent }
    requires extents { AreExtents (IsRoundFace (sheet_of pattern.now faces.now folded.now)) (length faces.now.rings) extents.now }
    requires block { BLOCK * b ≤ length extents.now }
    requires listed { AreFacesTo (sheet_of pattern.now faces.now folded.now) reach.number (BLOCK * b) list.old.items }
    requires few { length list.old.items ≤ most_constraints }
    ensures listed { OnOk result (AreFacesTo (sheet_of pattern.now faces.now folded.now) reach.number (BLOCK * b + BLOCK) list.new.items) }
    ensures few { OnOk result (length list.new.items ≤ most_constraints) }
    ensures refused { IfErr result (AreNoEdgeFaces (sheet_of pattern.now faces.now folded.now)) }
{
    let from = b * BLOCK;
    for f in from..block_end(from, extents.len()) {
        if is_beside(reach.extent, extents[f]) {
            continue;
        }
        append_face(list, pattern, faces, folded, reach.number, f as u32)?;
    }
    Ok(())
}

// Appends the edge with each face that it has a part inside of. Whole blocks that it is beside are passed over.
fn append_faces(
    list: &mut Vec<EdgeFace>,
    pattern: &Pattern,
    faces: &Faces,
    folded: &Folded,
    extents: &[Extent],
    blocks: &[Extent],
    e: u32,
) -> Result<(), No>
    requires folded { IsFoldedPattern pattern.now faces.now folded.now }
    requires edge { e < length pattern.now.edges }
    requires extents { AreExtents (IsRoundFace (sheet_of pattern.now faces.now folded.now)) (length faces.now.rings) extents.now }
    requires blocks_are { AreBlocks extents.now blocks.now }
    requires listed { AreFacesTo (sheet_of pattern.now faces.now folded.now) e 0 list.old.items }
    requires few { length list.old.items ≤ most_constraints }
    ensures listed { OnOk result (AreFacesTo (sheet_of pattern.now faces.now folded.now) (e + 1) 0 list.new.items) }
    ensures few { OnOk result (length list.new.items ≤ most_constraints) }
    ensures refused { IfErr result (AreNoEdgeFaces (sheet_of pattern.now faces.now folded.now)) }
{
    if !is_inner(pattern, faces, folded, e) {
        return Ok(());
    }
    let reach = edge_reach(pattern, faces, folded, e);
    for b in 0..blocks.len() {
        if is_beside(reach.extent, blocks[b]) {
            continue;
        }
        append_block(list, pattern, faces, folded, extents, reach, b)?;
    }
    Ok(())
}

/// The edges that aren't border edges and the faces that they have a part of positive length inside of, with the ends of
/// that part. They stand in order of the edge, then of the face. Refused exactly where there are more than
/// `MOST_CONSTRAINTS`.
pub fn edge_faces(
    alloc: Global,
    pattern: &Pattern,
    faces: &Faces,
    folded: &Folded,
) -> Result<Items<EdgeFace>, No>
    requires { IsFoldedPattern pattern.now faces.now folded.now }
    ensures made { IfOk result (λ list. AreEdgeFaces (sheet_of pattern.now faces.now folded.now) list) }
    ensures few { IfOk result (λ list. length list ≤ most_constraints) }
    ensures refused { IfErr result (AreNoEdgeFaces (sheet_of pattern.now faces.now folded.now)) }
{
    let extents = face_extents(alloc, pattern, faces, folded)?;
    let blocks = block_extents(alloc, extents.as_slice())?;
    let mut list = Vec::new(alloc);
    for e in 0..pattern.edges.as_slice().len() as u32 {
        append_faces(
            &mut list,
            pattern,
            faces,
            folded,
            extents.as_slice(),
            blocks.as_slice(),
            e,
        )?;
    }
    Ok(Items::of(list))
}
