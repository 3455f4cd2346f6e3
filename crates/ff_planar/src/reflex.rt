//! Vertices at which a ring isn't convex, or which it has inside.
ghost use Rattle.std.specs.Prelude.{◌≡◌, ◌<◌, ◌↔◌, ℕ, IsTrue, length, false, IfOk};
ghost use Rattle.std.specs.List.{All};
ghost use Rattle.ff_whole.specs.Points.{IsNear};
ghost use Rattle.ff_types.specs.Rings.{corner};
ghost use Rattle.ff_types.specs.Drawings.{IsDrawing};
ghost use Rattle.ff_types.specs.Walks.{AreRingWalks};
ghost use Rattle.ff_types.specs.FaceRefusals.{ReflexAt, EnclosedAt};
ghost use Rattle.ff_drawn.specs.Graphs.{IsGraph};
ghost use Rattle.ff_drawn.specs.Firsts.{IsFirst};
ghost use Rattle.ff_planar.specs.Frames.{NoneInside};
ghost use Rattle.ff_planar.specs.Reflex.{IsBad, IsReflex, HasReflex, SomeReflex, IsInside, SomeInside, AreThere};

use crate::bends::any_bent;
use ff_drawn::{is_left, is_right};
use ff_tables::{Items, NoMemory};
use ff_types::EdgeEnds;
use ff_whole::{Pt, next_place};
use std::alloc::Global;

// Whether the vertex at place `i` stands at place `j` too, or is strictly right of the step from there.
fn is_bad(points: &[Pt], ring: &[u32], i: usize, j: usize) -> bool
    requires near { All IsNear points.now }
    requires there { (k : ℕ) → k < length ring.now → corner ring.now k < length points.now }
    requires first { i < length ring.now }
    requires second { j < length ring.now }
    ensures { IsTrue result ↔ IsBad points.now ring.now i j }
{
    let (u, v) = (ring[j], ring[next_place(ring.len(), j)]);
    let w = ring[i];
    if i != j && u == w {
        return true;
    }
    is_right(points[u as usize], points[v as usize], points[w as usize])
}

// Whether it is so at some place.
fn is_reflex(points: &[Pt], ring: &[u32], i: usize) -> bool
    requires near { All IsNear points.now }
    requires there { (k : ℕ) → k < length ring.now → corner ring.now k < length points.now }
    requires within { i < length ring.now }
    ensures { IsTrue result ↔ IsReflex points.now ring.now i }
{
    for j in 0..ring.len() {
        if is_bad(points, ring, i, j) {
            return true;
        }
    }
    false
}

// Whether the ring comes to the vertex, and isn't convex there.
fn has_reflex(points: &[Pt], ring: &[u32], v: u32) -> bool
    requires near { All IsNear points.now }
    requires there { (k : ℕ) → k < length ring.now → corner ring.now k < length points.now }
    ensures { IsTrue result ↔ HasReflex points.now ring.now v }
{
    for i in 0..ring.len() {
        if ring[i] == v && is_reflex(points, ring, i) {
            return true;
        }
    }
    false
}

// Whether the vertex is strictly left of each step of the ring.
pub fn is_inside(points: &[Pt], ring: &[u32], v: u32) -> bool
    requires near { All IsNear points.now }
    requires there { (k : ℕ) → k < length ring.now → corner ring.now k < length points.now }
    requires within { v < length points.now }
    ensures { IsTrue result ↔ IsInside points.now ring.now v }
{
    for j in 0..ring.len() {
        let (u, w) = (ring[j], ring[next_place(ring.len(), j)]);
        if !is_left(points[u as usize], points[w as usize], points[v as usize]) {
            return false;
        }
    }
    true
}

// Whether some ring isn't convex at the vertex.
fn some_reflex(points: &[Pt], rings: &[Items<u32>], v: u32) -> bool
    requires near { All IsNear points.now }
    requires there { AreThere points.now rings.now }
    ensures { IsTrue result ↔ SomeReflex points.now rings.now v }
{
    for f in 0..rings.len() {
        if has_reflex(points, rings[f].as_slice(), v) {
            return true;
        }
    }
    false
}

// Whether the vertex is strictly inside some ring.
fn some_inside(points: &[Pt], rings: &[Items<u32>], v: u32) -> bool
    requires near { All IsNear points.now }
    requires there { AreThere points.now rings.now }
    requires within { v < length points.now }
    ensures { IsTrue result ↔ SomeInside points.now rings.now v }
{
    for f in 0..rings.len() {
        if is_inside(points, rings[f].as_slice(), v) {
            return true;
        }
    }
    false
}

/// The first vertex at which a ring stands twice or isn't convex.
pub fn first_reflex(
    alloc: Global,
    points: &[Pt],
    edges: &[EdgeEnds],
    rings: &[Items<u32>],
) -> Result<Option<usize>, NoMemory>
    requires graph { IsGraph points.now edges.now }
    requires drawing { IsDrawing points.now edges.now }
    requires rings { AreRingWalks points.now edges.now rings.now }
    ensures { IfOk result (IsFirst (ReflexAt points.now edges.now)) }
{
    if !any_bent(alloc, points, rings)? {
        return Ok(None);
    }
    for v in 0..points.len() {
        if some_reflex(points, rings, v as u32) {
            return Ok(Some(v));
        }
    }
    Ok(None)
}

/// The first vertex that is strictly inside a ring, where it is known whether any is.
pub fn first_enclosed(
    points: &[Pt],
    edges: &[EdgeEnds],
    rings: &[Items<u32>],
    any: bool,
) -> Option<usize>
    requires graph { IsGraph points.now edges.now }
    requires drawing { IsDrawing points.now edges.now }
    requires rings { AreRingWalks points.now edges.now rings.now }
    requires known { any ≡ false → NoneInside points.now rings.now }
    ensures { IsFirst (EnclosedAt points.now edges.now) result }
{
    if !any {
        return None;
    }
    for v in 0..points.len() {
        if some_inside(points, rings, v as u32) {
            return Some(v);
        }
    }
    None
}
