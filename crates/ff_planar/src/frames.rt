//! How far rings reach, and whether any vertex is inside one, found from west to east.
ghost use Rattle.std.specs.Prelude.{◌≡◌, ◌<◌, ◌≤◌, ◌<ℤ◌, ℕ, false, length, IfOk};
ghost use Rattle.std.specs.List.{All};
ghost use Rattle.ff_whole.specs.Points.{IsNear};
ghost use Rattle.ff_whole.specs.declared.points.Pt.{Pt as PtRow};
ghost use Rattle.ff_types.specs.Rings.{corner};
ghost use Rattle.ff_types.specs.Faces.{ring_at};
ghost use Rattle.ff_drawn.specs.Extents.{extent_at, IsAround, AreInOrder as AreFromWest, IsVertexExtent, AreVertexExtents, AreSpots};
ghost use Rattle.ff_planar.specs.Reflex.{AreThere, IsInside};
ghost use Rattle.ff_planar.specs.Frames.{IsAroundCorners, IsRingExtent, AreRingExtents, AreSome, AreWest, HoldsNone, AreHollow, NoneInside};

use crate::reflex::is_inside;
use ff_drawn::{Extent, is_south_of, is_west_of, order};
use ff_tables::{Items, NoMemory};
use ff_whole::{Pt, high_of, low_of};
use std::alloc::Global;

// The extent with one point more.
fn grown(e: Extent, p: Pt) -> Extent
    requires low { IsNear e.low }
    requires high { IsNear e.high }
    requires near { IsNear p }
    ensures low { IsNear result.low }
    ensures high { IsNear result.high }
    ensures here { IsAround p result }
    ensures others { (q : PtRow) → IsAround q e → IsAround q result }
    ensures number { result.number ≡ e.number }
{
    Extent {
        low: low_of(e.low, p),
        high: high_of(e.high, p),
        number: e.number,
    }
}

fn ring_extent(points: &[Pt], ring: &[u32], number: u32) -> Extent
    requires near { All IsNear points.now }
    requires there { (k : ℕ) → k < length ring.now → corner ring.now k < length points.now }
    requires some { 0 < length ring.now }
    ensures around { IsAroundCorners points.now ring.now (length ring.now) result }
    ensures number { result.number ≡ number }
{
    let first = points[ring[0] as usize];
    let mut e = Extent {
        low: first,
        high: first,
        number,
    };
    for i in 0..ring.len() {
        e = grown(e, points[ring[i] as usize]);
    }
    e
}

fn ring_of<'a>(rings: &'a [Items<u32>], f: usize) -> &'a [u32]
    requires { f < length rings.now }
    ensures { result.now ≡ ring_at rings.now f }
{
    rings[f].as_slice()
}

// The extents of all rings.
fn ring_extents(alloc: Global, points: &[Pt], rings: &[Items<u32>]) -> Result<Vec<Extent>, NoMemory>
    requires near { All IsNear points.now }
    requires there { AreThere points.now rings.now }
    requires some { AreSome rings.now }
    requires few { length rings.now ≤ 32768 }
    ensures { IfOk result (λ list. AreRingExtents points.now rings.now list.items) }
{
    let mut list = Vec::new(alloc);
    for f in 0..rings.len() {
        list.push(ring_extent(points, ring_of(rings, f), f as u32))?;
    }
    Ok(list)
}

// The place of the first vertex that is east of the ring's west end.
fn first_from(points: &[Pt], spots: &[Extent], frame: Extent, start: usize) -> usize
    requires spots { AreVertexExtents points.now spots.now }
    requires near { IsNear frame.low }
    requires within { start ≤ length spots.now }
    requires before { AreWest spots.now frame start }
    ensures within { result ≤ length spots.now }
    ensures before { AreWest spots.now frame result }
{
    let _ = points.len();
    let mut place = start;
    while place < spots.len() {
        if is_west_of(frame.low, spots[place].low) {
            return place;
        }
        place += 1;
    }
    place
}

// Whether a vertex is inside the ring with this extent.
fn holds(points: &[Pt], ring: &[u32], frame: Extent, v: Extent) -> bool
    requires near { All IsNear points.now }
    requires there { (k : ℕ) → k < length ring.now → corner ring.now k < length points.now }
    requires some { 0 < length ring.now }
    requires frame { IsAroundCorners points.now ring.now (length ring.now) frame }
    requires vertex { IsVertexExtent points.now v }
    ensures { result ≡ false → IsInside points.now ring.now v.number → ⊥ }
{
    if is_south_of(v.low, frame.low) {
        return false;
    }
    if is_south_of(frame.high, v.low) {
        return false;
    }
    is_inside(points, ring, v.number)
}

// Whether one of the vertices from a place on is inside the ring.
fn holds_any(points: &[Pt], ring: &[u32], spots: &[Extent], frame: Extent, start: usize) -> bool
    requires near { All IsNear points.now }
    requires there { (k : ℕ) → k < length ring.now → corner ring.now k < length points.now }
    requires some { 0 < length ring.now }
    requires frame { IsAroundCorners points.now ring.now (length ring.now) frame }
    requires spots { AreVertexExtents points.now spots.now }
    requires in_order { AreFromWest spots.now }
    ensures { result ≡ false → HoldsNone points.now ring.now spots.now start (length spots.now) }
{
    for j in start..spots.len() {
        if !is_west_of(spots[j].low, frame.high) {
            return false;
        }
        if holds(points, ring, frame, spots[j]) {
            return true;
        }
    }
    false
}

// Whether a vertex is inside a ring, by their extents in order.
fn any_held(points: &[Pt], rings: &[Items<u32>], spots: &[Extent], frames: &[Extent]) -> bool
    requires near { All IsNear points.now }
    requires there { AreThere points.now rings.now }
    requires some { AreSome rings.now }
    requires spots { AreVertexExtents points.now spots.now }
    requires frames { AreRingExtents points.now rings.now frames.now }
    requires spots_in_order { AreFromWest spots.now }
    requires frames_in_order { AreFromWest frames.now }
    ensures { result ≡ false → NoneInside points.now rings.now }
{
    let mut start = 0;
    for i in 0..frames.len() {
        let frame = frames[i];
        start = first_from(points, spots, frame, start);
        let ring = ring_of(rings, frame.number as usize);
        if holds_any(points, ring, spots, frame, start) {
            return true;
        }
    }
    false
}

// The same for rings' extents in any order, which are put in order.
fn any_among(points: &[Pt], rings: &[Items<u32>], spots: &[Extent], frames: &mut [Extent]) -> bool
    requires near { All IsNear points.now }
    requires there { AreThere points.now rings.now }
    requires some { AreSome rings.now }
    requires spots { AreSpots points.now spots.now }
    requires frames { AreRingExtents points.now rings.now frames.old }
    ensures { result ≡ false → NoneInside points.now rings.now }
{
    order(frames);
    any_held(points, rings, spots, frames)
}

/// Whether any vertex is inside a ring: where it is false, none is.
pub fn any_enclosed(
    alloc: Global,
    points: &[Pt],
    rings: &[Items<u32>],
    spots: &[Extent],
) -> Result<bool, NoMemory>
    requires near { All IsNear points.now }
    requires there { AreThere points.now rings.now }
    requires some { AreSome rings.now }
    requires spots { AreSpots points.now spots.now }
    requires few_rings { length rings.now ≤ 32768 }
    ensures { IfOk result (λ any. any ≡ false → NoneInside points.now rings.now) }
{
    let mut frames = ring_extents(alloc, points, rings)?;
    Ok(any_among(points, rings, spots, frames.as_mut_slice()))
}
