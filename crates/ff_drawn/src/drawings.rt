//! Whether a crease pattern is a drawing.
ghost use Rattle.std.specs.Prelude.{◌≡◌, ◌<◌, ◌≤◌, ℕ, IsTrue, length, IfOk, MatchResult};
ghost use Rattle.ff_types.specs.Drawings.{IsDrawing};
ghost use Rattle.ff_types.specs.FaceRefusals.{SamePointAt, CrossingAt};
ghost use Rattle.ff_whole.specs.Convex.{AreApart};
ghost use Rattle.ff_drawn.specs.Graphs.{IsGraph};
ghost use Rattle.ff_drawn.specs.Firsts.{IsFirst};
ghost use Rattle.ff_drawn.specs.Drawn.{FirstCross, FirstLoose, IsDrawnAt, IsNoDrawing};
ghost use Rattle.ff_drawn.specs.Darts.{AreDarts, AreStarts};
ghost use Rattle.ff_drawn.specs.Extents.{AreSpots};

use crate::crossings::any_crossing;
use crate::darts::{Dart, darts_of};
use crate::extents::Extent;
use crate::leaving::{has_two_edges, starts_of};
use crate::segments::cross;
use crate::spots::{any_same, spots_of};
use ff_tables::NoMemory;
use ff_types::{EdgeEnds, No, Pattern, Refusal};
use ff_whole::Pt;
use std::alloc::Global;
use std::collections::BTreeSet;

// The first vertex at the point of an earlier one.
fn first_same_point(alloc: Global, points: &[Pt]) -> Result<Option<usize>, NoMemory>
    ensures { IfOk result (λ first. IsFirst (SamePointAt points.now) first) }
{
    let mut seen = BTreeSet::new(alloc);
    for v in 0..points.len() {
        if !seen.insert(points[v])? {
            return Ok(Some(v));
        }
    }
    Ok(None)
}

// The first vertex at the point of an earlier one, looked for one by one only where any is.
fn same_point(alloc: Global, points: &[Pt], spots: &[Extent]) -> Result<Option<usize>, NoMemory>
    requires { AreSpots points.now spots.now }
    ensures { IfOk result (λ first. IsFirst (SamePointAt points.now) first) }
{
    if any_same(points, spots) {
        first_same_point(alloc, points)
    } else {
        Ok(None)
    }
}

// The first edge after `e` that crosses it.
fn first_across(points: &[Pt], edges: &[EdgeEnds], e: usize) -> Option<usize>
    requires graph { IsGraph points.now edges.now }
    requires apart { AreApart points.now }
    requires within { e < length edges.now }
    ensures { IsFirst (CrossingAt points.now edges.now e) result }
{
    for k in e + 1..edges.len() {
        if cross(points, edges, e, k) {
            return Some(k);
        }
    }
    None
}

// The first two edges that cross.
fn first_crossing(points: &[Pt], edges: &[EdgeEnds]) -> Option<(usize, usize)>
    requires graph { IsGraph points.now edges.now }
    requires apart { AreApart points.now }
    ensures { FirstCross points.now edges.now result }
{
    for e in 0..edges.len() {
        if let Some(k) = first_across(points, edges, e) {
            return Some((e, k));
        }
    }
    None
}

// The first two edges that cross, looked for one by one only where any do.
fn crossing(
    alloc: Global,
    points: &[Pt],
    edges: &[EdgeEnds],
) -> Result<Option<(usize, usize)>, NoMemory>
    requires graph { IsGraph points.now edges.now }
    requires apart { AreApart points.now }
    ensures { IfOk result (FirstCross points.now edges.now) }
{
    if any_crossing(alloc, points, edges)? {
        Ok(first_crossing(points, edges))
    } else {
        Ok(None)
    }
}

// The first vertex with fewer than two edges.
fn first_loose(points: &[Pt], edges: &[EdgeEnds], darts: &[Dart], starts: &[u32]) -> Option<usize>
    requires graph { IsGraph points.now edges.now }
    requires darts { AreDarts edges.now darts.now }
    requires starts { AreStarts darts.now (length points.now) starts.now }
    ensures { FirstLoose points.now edges.now result }
{
    for v in 0..points.len() {
        if !has_two_edges(points, edges, darts, starts, v) {
            return Some(v);
        }
    }
    None
}

/// The darts of a drawing; for each vertex, and one past the last, where those that leave it begin; and the vertices from
/// west to east.
#[derive(Drop)]
pub struct Drawn {
    pub darts: Vec<Dart>,
    pub starts: Vec<u32>,
    pub spots: Vec<Extent>,
}

/// The darts of the drawing that these points and edges are, or why they are none.
pub fn drawn_darts(alloc: Global, points: &[Pt], edges: &[EdgeEnds]) -> Result<Drawn, No>
    requires graph { IsGraph points.now edges.now }
    ensures { MatchResult result (λ drawn. IsDrawnAt points.now edges.now drawn.darts.items drawn.starts.items drawn.spots.items) (IsNoDrawing points.now edges.now) }
{
    let spots = spots_of(alloc, points)?;
    if let Some(v) = same_point(alloc, points, &spots)? {
        return Err(No::Refused(Refusal::SamePoint { v: v as u32 }));
    }
    if let Some((e, k)) = crossing(alloc, points, edges)? {
        return Err(No::Refused(Refusal::Crossing {
            e: e as u32,
            e2: k as u32,
        }));
    }
    let darts = darts_of(alloc, edges)?;
    let starts = starts_of(alloc, &darts, points.len())?;
    if let Some(v) = first_loose(points, edges, &darts, &starts) {
        return Err(No::Refused(Refusal::Loose { v: v as u32 }));
    }
    Ok(Drawn {
        darts,
        starts,
        spots,
    })
}

/// Whether the pattern is a drawing: refused at the first vertex that stands at the point of an earlier one, then at the
/// first two edges that cross, then at the first vertex with fewer than two edges.
pub fn drawing(alloc: Global, pattern: &Pattern) -> Result<(), No>
    ensures { MatchResult result (λ _. IsDrawing pattern.now.points pattern.now.edges) (IsNoDrawing pattern.now.points pattern.now.edges) }
{
    drawn_darts(alloc, pattern.points.as_slice(), pattern.edges.as_slice())?;
    Ok(())
}
