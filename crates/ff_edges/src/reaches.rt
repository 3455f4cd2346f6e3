//! How far the images of edges and faces reach.
ghost use Rattle.std.specs.Prelude.{◌≡◌, ◌<◌, length, IfOk, IfErr};
ghost use Rattle.std.specs.List.{All};
ghost use Rattle.ff_whole.specs.Points.{IsNear};
ghost use Rattle.ff_types.specs.declared.refusals.No.TheVariants.{NoMemory as no_memory};
ghost use Rattle.ff_types.specs.FoldedPatterns.{IsFoldedPattern};
ghost use Rattle.ff_types.specs.Sheets.{sheet_of};
ghost use Rattle.ff_edges.specs.Extents.{IsExtent, IsRoundEdge, IsRoundInner, AreRound, IsRoundFace, AreExtents};

use crate::beside::ends;
use crate::extents::{Extent, at, joined, nowhere, push};
use crate::shared::is_inner;
use ff_types::{Faces, Folded, No, Pattern};
use ff_whole::Pt;
use std::alloc::Global;

/// The number of something, and how far it reaches.
#[derive(Clone, Copy, Debug, PartialEq, Eq)]
pub struct Reach {
    pub number: u32,
    pub extent: Extent,
}

/// How far the image of an edge reaches.
pub fn edge_reach(pattern: &Pattern, faces: &Faces, folded: &Folded, e: u32) -> Reach
    requires folded { IsFoldedPattern pattern.now faces.now folded.now }
    requires edge { e < length pattern.now.edges }
    ensures number { result.number ≡ e }
    ensures extent { IsExtent result.extent }
    ensures round { IsRoundEdge (sheet_of pattern.now faces.now folded.now) e result.extent }
{
    let (p, q) = ends(pattern, faces, folded, e);
    Reach {
        number: e,
        extent: joined(at(p), at(q)),
    }
}

// Nothing for a border edge.
fn inner_extent(pattern: &Pattern, faces: &Faces, folded: &Folded, e: u32) -> Extent
    requires folded { IsFoldedPattern pattern.now faces.now folded.now }
    requires edge { e < length pattern.now.edges }
    ensures extent { IsExtent result }
    ensures round { IsRoundInner (sheet_of pattern.now faces.now folded.now) e result }
{
    if is_inner(pattern, faces, folded, e) {
        edge_reach(pattern, faces, folded, e).extent
    } else {
        nowhere()
    }
}

/// How far the images of all edges reach that aren't border edges.
pub fn inner_extents(
    alloc: Global,
    pattern: &Pattern,
    faces: &Faces,
    folded: &Folded,
) -> Result<Vec<Extent>, No>
    requires { IsFoldedPattern pattern.now faces.now folded.now }
    ensures made { IfOk result (λ list. AreExtents (IsRoundInner (sheet_of pattern.now faces.now folded.now)) (length pattern.now.edges) list.items) }
    ensures refused { IfErr result (λ no. no ≡ no_memory) }
{
    let mut list = Vec::new(alloc);
    for e in 0..pattern.edges.as_slice().len() as u32 {
        push(&mut list, inner_extent(pattern, faces, folded, e))?;
    }
    Ok(list)
}

fn ring_extent(points: &[Pt], ring: &[u32]) -> Extent
    requires near { All IsNear points.now }
    requires below { All (λ v. v < length points.now) ring.now }
    ensures extent { IsExtent result }
    ensures round { AreRound points.now ring.now (length ring.now) result }
{
    let mut extent = nowhere();
    for i in 0..ring.len() {
        extent = joined(extent, at(points[ring[i] as usize]));
    }
    extent
}

// How far the image of a face reaches.
fn face_extent(pattern: &Pattern, faces: &Faces, folded: &Folded, f: u32) -> Extent
    requires folded { IsFoldedPattern pattern.now faces.now folded.now }
    requires face { f < length faces.now.rings }
    ensures extent { IsExtent result }
    ensures round { IsRoundFace (sheet_of pattern.now faces.now folded.now) f result }
{
    let _ = pattern.edges.as_slice().len();
    let ring = faces.rings.as_slice()[f as usize].as_slice();
    ring_extent(folded.points.as_slice(), ring)
}

/// How far the images of all faces reach.
pub fn face_extents(
    alloc: Global,
    pattern: &Pattern,
    faces: &Faces,
    folded: &Folded,
) -> Result<Vec<Extent>, No>
    requires { IsFoldedPattern pattern.now faces.now folded.now }
    ensures made { IfOk result (λ list. AreExtents (IsRoundFace (sheet_of pattern.now faces.now folded.now)) (length faces.now.rings) list.items) }
    ensures refused { IfErr result (λ no. no ≡ no_memory) }
{
    let mut list = Vec::new(alloc);
    for f in 0..faces.rings.as_slice().len() as u32 {
        push(&mut list, face_extent(pattern, faces, folded, f))?;
    }
    Ok(list)
}
