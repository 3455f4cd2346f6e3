//! Convex rings of points.
ghost use Rattle.std.specs.Prelude.{ℕ, ◌≡◌, ◌<◌, ◌↔◌, pos, ◌≤ℤ◌, ◌<ℤ◌, length, IsTrue};
ghost use Rattle.std.specs.List.{All};
ghost use Rattle.ff_whole.specs.Points.{IsNear, turn};
ghost use Rattle.ff_whole.specs.Convex.{next as next_of, point_at, AreApart, IsConvex};
ghost use Rattle.ff_whole.specs.Turning.{rank, IsCorner, AreCorners};

use crate::{Pt, orient};

/// The place after `i` in a closed list of length `n`.
pub fn next_place(n: usize, i: usize) -> usize
    requires { i < n }
    ensures value { result ≡ next_of n i }
    ensures within { result < n }
{
    if i + 1 < n { i + 1 } else { 0 }
}

fn is_on_or_left(p: Pt, q: Pt, r: Pt) -> bool
    requires p_near { IsNear p }
    requires q_near { IsNear q }
    requires r_near { IsNear r }
    ensures { IsTrue result ↔ (pos 0 ≤ℤ turn p q r) }
{
    orient(p, q, r) >= 0
}

fn is_left(p: Pt, q: Pt, r: Pt) -> bool
    requires p_near { IsNear p }
    requires q_near { IsNear q }
    requires r_near { IsNear r }
    ensures { IsTrue result ↔ (pos 0 <ℤ turn p q r) }
{
    orient(p, q, r) > 0
}

// Whether `p` comes before `q` in the order of x, and then of y.
fn is_before(p: Pt, q: Pt) -> bool
    requires p_near { IsNear p }
    requires q_near { IsNear q }
    ensures { IsTrue result ↔ (rank p <ℤ rank q) }
{
    p < q
}

// The place of the first point in the order of x, and then of y.
fn first_place(points: &[Pt]) -> usize
    requires near { All IsNear points.now }
    requires some { 0 < length points.now }
    ensures within { result < length points.now }
    ensures first { (k : ℕ) → k < length points.now → rank (point_at points.now result) ≤ℤ rank (point_at points.now k) }
{
    let mut first = 0;
    for i in 0..points.len() {
        if is_before(points[i], points[first]) {
            first = i;
        }
    }
    first
}

// Whether the ring turns as a convex one does at the place after `i`, where `first` is its least point's place.
fn is_corner(points: &[Pt], first: usize, i: usize) -> bool
    requires near { All IsNear points.now }
    requires within { i < length points.now }
    ensures { IsTrue result ↔ IsCorner points.now first i }
{
    let j = next_place(points.len(), i);
    let k = next_place(points.len(), j);
    let (p, q, r) = (points[i], points[j], points[k]);
    if j == first {
        return is_left(p, q, r);
    }
    if is_before(q, p) && is_before(q, r) {
        return false;
    }
    is_on_or_left(p, q, r)
}

fn are_corners(points: &[Pt], first: usize) -> bool
    requires near { All IsNear points.now }
    ensures { IsTrue result ↔ AreCorners points.now first }
{
    for i in 0..points.len() {
        if !is_corner(points, first, i) {
            return false;
        }
    }
    true
}

/// Whether the points are the corners of a convex ring in counterclockwise order. Takes linear time.
///
/// Such a ring turns right nowhere, turns left at its first point in the order of x and then of y, and comes nowhere
/// else to a point that stands before both its neighbours in that order.
pub fn is_convex(points: &[Pt]) -> bool
    requires near { All IsNear points.now }
    requires apart { AreApart points.now }
    ensures { IsTrue result ↔ IsConvex points.now }
{
    if points.is_empty() {
        return false;
    }
    are_corners(points, first_place(points))
}
