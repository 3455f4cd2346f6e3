//! On which side of an edge's image faces lie.
ghost use Rattle.std.specs.Prelude.{◌≡◌, ◌≢◌, ◌<◌, ◌↔◌, ◌≤ℤ◌, pos, length, min, max, IsTrue};
ghost use Rattle.std.specs.List.{All, list_all};
ghost use Rattle.ff_whole.specs.Points.{IsNear, turn};
ghost use Rattle.ff_edges.specs.Ways.{are_left, are_right};

use ff_whole::{Pt, orient};

/// Whether `r` isn't right of the way from `p` to `q`.
pub fn is_on_or_left(p: Pt, q: Pt, r: Pt) -> bool
    requires p_near { IsNear p }
    requires q_near { IsNear q }
    requires r_near { IsNear r }
    ensures { IsTrue result ↔ (pos 0 ≤ℤ turn p q r) }
{
    orient(p, q, r) >= 0
}

/// Whether none of the vertices of the ring is right of the way from `p` to `q`.
pub fn lies_left(points: &[Pt], ring: &[u32], p: Pt, q: Pt) -> bool
    requires p_near { IsNear p }
    requires q_near { IsNear q }
    requires near { All IsNear points.now }
    requires below { All (λ v. v < length points.now) ring.now }
    ensures { IsTrue result ↔ IsTrue (are_left points.now p q ring.now) }
{
    for i in 0..ring.len() {
        if !is_on_or_left(p, q, points[ring[i] as usize]) {
            return false;
        }
    }
    true
}

/// Whether none of the vertices of the ring is left of the way from `p` to `q`.
pub fn lies_right(points: &[Pt], ring: &[u32], p: Pt, q: Pt) -> bool
    requires p_near { IsNear p }
    requires q_near { IsNear q }
    requires near { All IsNear points.now }
    requires below { All (λ v. v < length points.now) ring.now }
    ensures { IsTrue result ↔ IsTrue (are_right points.now p q ring.now) }
{
    for i in 0..ring.len() {
        if !is_on_or_left(q, p, points[ring[i] as usize]) {
            return false;
        }
    }
    true
}
