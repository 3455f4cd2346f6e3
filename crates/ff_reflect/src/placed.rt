//! The points placed so far, at the least scale that makes them whole.
ghost use Rattle.std.specs.Prelude.{◌≡◌, ◌↔◌, ◌<◌, pos, ◌*ℤ◌, ◌<ℤ◌, length, IsTrue, IfOk, MatchOption, MatchResult};
ghost use Rattle.std.specs.Bool.{MatchBool};
ghost use Rattle.ff_whole.specs.Sizes.{IsBelow};
ghost use Rattle.ff_whole.specs.Points.{IsNear};
ghost use Rattle.ff_types.specs.Foldings.{scaled};
ghost use Rattle.ff_reflect.specs.Puts.{IsNothing, IsHere, IsNearPoint, AreNearPoints, IsGrown, IsTooLarge, IsFit, IsAdded, IsTooFar, Puts, Refuses};

use crate::image::{Image, lowest};
use crate::sizes::{IMAGE_SIZE, LENGTH_SIZE};
use ff_tables::NoMemory;
use ff_types::Refusal;
use ff_whole::{POINT_SIZE, Pt, SLOPE_SIZE};
use std::alloc::Global;

/// The point of each vertex times the scale, and which vertices are placed. Others are at the origin.
#[derive(Drop)]
pub(crate) struct Placed {
    pub(crate) scale: i128,
    pub(crate) points: Vec<Pt>,
    pub(crate) placed: Vec<bool>,
}

// Whether n times a coordinate is z.
fn is_times(n: i64, at: i64, z: i128) -> bool
    requires n_size { IsBelow LENGTH_SIZE n }
    requires at_size { IsBelow POINT_SIZE at }
    requires z_size { IsBelow IMAGE_SIZE z }
    ensures { IsTrue result ↔ (n *ℤ at ≡ z) }
{
    n as i128 * at as i128 == z
}

// Whether the image is the point.
fn is_here(image: Image, p: Pt) -> bool
    requires image { IsFit image }
    requires near { IsNear p }
    ensures { IsTrue result ↔ IsHere image p }
{
    is_times(image.n, p.x, image.x) && is_times(image.n, p.y, image.y)
}

// The point with these coordinates, where it is near.
fn near_point(x: i128, y: i128) -> Option<Pt>
    ensures { MatchOption result (IsNear (record { x = x; y = y }) → ⊥) (IsNearPoint x y) }
{
    if x.unsigned_abs() < POINT_SIZE as u128 && y.unsigned_abs() < POINT_SIZE as u128 {
        Some(Pt {
            x: x as i64,
            y: y as i64,
        })
    } else {
        None
    }
}

// The point times the factor, where it is near.
fn grown(p: Pt, factor: i128) -> Option<Pt>
    requires near { IsNear p }
    requires size { IsBelow LENGTH_SIZE factor }
    ensures { MatchOption result (IsNear (scaled factor p) → ⊥) (IsNearPoint (factor *ℤ p.x) (factor *ℤ p.y)) }
{
    near_point(factor * p.x as i128, factor * p.y as i128)
}

// All points times the factor. False where one of them isn't near then.
fn grow(points: &mut Vec<Pt>, factor: i128) -> bool
    requires near { AreNearPoints points.old.items }
    requires size { IsBelow LENGTH_SIZE factor }
    ensures { MatchBool result (IsGrown factor points.old.items points.new.items) (IsTooLarge factor points.old.items) }
{
    for i in 0..points.len() {
        match grown(points[i], factor) {
            Some(p) => points[i] = p,
            None => return false,
        }
    }
    true
}

// The same, at once where the factor is 1.
fn grow_by(points: &mut Vec<Pt>, factor: i128) -> bool
    requires near { AreNearPoints points.old.items }
    requires size { IsBelow LENGTH_SIZE factor }
    requires positive { pos 0 <ℤ factor }
    ensures { MatchBool result (IsGrown factor points.old.items points.new.items) (IsTooLarge factor points.old.items) }
{
    if factor > 1 {
        grow(points, factor)
    } else {
        true
    }
}

impl Placed {
    /// No vertex is placed, and the scale is 1.
    pub(crate) fn new(alloc: Global, vertices: usize) -> Result<Placed, NoMemory>
        ensures { IfOk result (λ s. IsNothing vertices s) }
    {
        let points = vec![in alloc; Pt { x: 0, y: 0 }; vertices]?;
        let placed = vec![in alloc; false; vertices]?;
        Ok(Placed {
            scale: 1,
            points,
            placed,
        })
    }

    // Places a vertex that has no place, at the least scale. False where a point isn't near then.
    fn add(&mut self, v: u32, image: Image) -> bool
        requires image { IsFit image }
        requires near { AreNearPoints self.old.points.items }
        requires small { IsBelow SLOPE_SIZE self.old.scale }
        requires point { v < length self.old.points.items }
        requires flag { v < length self.old.placed.items }
        ensures { MatchBool result (IsAdded v image self.old self.new) (IsTooFar image self.old) }
    {
        let place = lowest(image);
        let Some(p) = near_point(place.x, place.y) else {
            return false;
        };
        if !grow_by(&mut self.points, place.w) {
            return false;
        }
        self.scale *= place.w;
        self.points[v as usize] = p;
        self.placed[v as usize] = true;
        true
    }

    /// Places a vertex, or sees that its place is the one that it has.
    pub(crate) fn put(&mut self, v: u32, image: Image) -> Result<(), Refusal>
        requires image { IsFit image }
        requires near { AreNearPoints self.old.points.items }
        requires small { IsBelow SLOPE_SIZE self.old.scale }
        requires point { v < length self.old.points.items }
        requires flag { v < length self.old.placed.items }
        ensures { MatchResult result (λ _. Puts v image self.old self.new) (Refuses v image self.old) }
    {
        if self.placed[v as usize] {
            if is_here(image, self.points[v as usize]) {
                return Ok(());
            }
            return Err(Refusal::Inconsistent { v });
        }
        if self.add(v, image) {
            Ok(())
        } else {
            Err(Refusal::Oversized { v })
        }
    }
}
