//! Whether two edges cross.
ghost use Rattle.std.specs.Prelude.{◌≡◌, ◌≢◌, ◌<◌, ◌↔◌, ◌⊎◌, IsTrue, pos, ◌<ℤ◌, length};
ghost use Rattle.ff_whole.specs.Points.{IsNear, minus, dot, turn};
ghost use Rattle.ff_whole.proofs.SegmentPoints.{IsWithin, AreOpposite, AreCrossing};
ghost use Rattle.std.specs.List.{All};
ghost use Rattle.ff_types.specs.Patterns.{edge_at, Joins};
ghost use Rattle.ff_types.specs.Drawings.{first_point, last_point};
ghost use Rattle.ff_types.specs.FaceRefusals.{CrossingAt};
ghost use Rattle.ff_whole.specs.Convex.{AreApart};
ghost use Rattle.ff_drawn.specs.Graphs.{IsGraph};
ghost use Rattle.ff_drawn.specs.Beside.{AreBelow, AreBoxedApart, IsBeside};

use ff_types::EdgeEnds;
use ff_whole::{Pt, orient};

// The dot product of the ways from `p` to `a` and to `b`.
fn dot_from(p: Pt, a: Pt, b: Pt) -> i64
    requires p_near { IsNear p }
    requires a_near { IsNear a }
    requires b_near { IsNear b }
    ensures { result ≡ dot (minus a p) (minus b p) }
{
    (a.x - p.x) * (b.x - p.x) + (a.y - p.y) * (b.y - p.y)
}

// Whether `p` is within the segment from `a` to `b`, and no end of it.
fn is_within(a: Pt, b: Pt, p: Pt) -> bool
    requires a_near { IsNear a }
    requires b_near { IsNear b }
    requires p_near { IsNear p }
    ensures { IsTrue result ↔ IsWithin a b p }
{
    if orient(a, b, p) != 0 {
        return false;
    }
    dot_from(p, a, b) < 0
}

/// Whether `p` is left of the line from `a` to `b`.
pub fn is_left(a: Pt, b: Pt, p: Pt) -> bool
    requires a_near { IsNear a }
    requires b_near { IsNear b }
    requires p_near { IsNear p }
    ensures { IsTrue result ↔ (pos 0 <ℤ turn a b p) }
{
    orient(a, b, p) > 0
}

/// Whether `p` is right of the line from `a` to `b`.
pub fn is_right(a: Pt, b: Pt, p: Pt) -> bool
    requires a_near { IsNear a }
    requires b_near { IsNear b }
    requires p_near { IsNear p }
    ensures { IsTrue result ↔ (turn a b p <ℤ pos 0) }
{
    orient(a, b, p) < 0
}

// Whether `p` and `q` are strictly on different sides of the line from `a` to `b`.
fn are_parted(a: Pt, b: Pt, p: Pt, q: Pt) -> bool
    requires a_near { IsNear a }
    requires b_near { IsNear b }
    requires p_near { IsNear p }
    requires q_near { IsNear q }
    ensures { IsTrue result ↔ AreOpposite (turn a b p) (turn a b q) }
{
    if is_left(a, b, p) {
        return is_right(a, b, q);
    }
    if is_right(a, b, p) {
        return is_left(a, b, q);
    }
    false
}

// Whether an end of the segment from `c` to `d` is within that from `a` to `b`.
fn has_end_within(a: Pt, b: Pt, c: Pt, d: Pt) -> bool
    requires a_near { IsNear a }
    requires b_near { IsNear b }
    requires c_near { IsNear c }
    requires d_near { IsNear d }
    ensures { IsTrue result ↔ (IsWithin a b c ⊎ IsWithin a b d) }
{
    if is_within(a, b, c) {
        return true;
    }
    is_within(a, b, d)
}

// Whether the segments from `a` to `b` and from `c` to `d` cross, or an end of one is within the other.
fn are_crossing(a: Pt, b: Pt, c: Pt, d: Pt) -> bool
    requires a_near { IsNear a }
    requires b_near { IsNear b }
    requires c_near { IsNear c }
    requires d_near { IsNear d }
    ensures { IsTrue result ↔ AreCrossing a b c d }
{
    if are_parted(a, b, c, d) && are_parted(c, d, a, b) {
        return true;
    }
    if has_end_within(a, b, c, d) {
        return true;
    }
    has_end_within(c, d, a, b)
}

// Whether the segment from `a` to `b` has lesser x than the one from `c` to `d`, all along.
fn is_before(a: Pt, b: Pt, c: Pt, d: Pt) -> bool
    requires a_near { IsNear a }
    requires b_near { IsNear b }
    requires c_near { IsNear c }
    requires d_near { IsNear d }
    ensures { IsTrue result ↔ AreBelow a.x b.x c.x d.x }
{
    if a.x >= c.x {
        return false;
    }
    if a.x >= d.x {
        return false;
    }
    if b.x >= c.x {
        return false;
    }
    b.x < d.x
}

// Whether it has lesser y.
fn is_below(a: Pt, b: Pt, c: Pt, d: Pt) -> bool
    requires a_near { IsNear a }
    requires b_near { IsNear b }
    requires c_near { IsNear c }
    requires d_near { IsNear d }
    ensures { IsTrue result ↔ AreBelow a.y b.y c.y d.y }
{
    if a.y >= c.y {
        return false;
    }
    if a.y >= d.y {
        return false;
    }
    if b.y >= c.y {
        return false;
    }
    b.y < d.y
}

fn are_clear_in_x(a: Pt, b: Pt, c: Pt, d: Pt) -> bool
    requires a_near { IsNear a }
    requires b_near { IsNear b }
    requires c_near { IsNear c }
    requires d_near { IsNear d }
    ensures { IsTrue result ↔ (AreBelow a.x b.x c.x d.x ⊎ AreBelow c.x d.x a.x b.x) }
{
    if is_before(a, b, c, d) {
        return true;
    }
    is_before(c, d, a, b)
}

fn are_clear_in_y(a: Pt, b: Pt, c: Pt, d: Pt) -> bool
    requires a_near { IsNear a }
    requires b_near { IsNear b }
    requires c_near { IsNear c }
    requires d_near { IsNear d }
    ensures { IsTrue result ↔ (AreBelow a.y b.y c.y d.y ⊎ AreBelow c.y d.y a.y b.y) }
{
    if is_below(a, b, c, d) {
        return true;
    }
    is_below(c, d, a, b)
}

// Whether the boxes round the segments from `a` to `b` and from `c` to `d` lie apart.
fn are_boxed_apart(a: Pt, b: Pt, c: Pt, d: Pt) -> bool
    requires a_near { IsNear a }
    requires b_near { IsNear b }
    requires c_near { IsNear c }
    requires d_near { IsNear d }
    ensures { IsTrue result ↔ AreBoxedApart a b c d }
{
    if are_clear_in_x(a, b, c, d) {
        return true;
    }
    are_clear_in_y(a, b, c, d)
}

// Whether the segment from `c` to `d` is strictly on one side of the line from `a` to `b`.
fn is_beside(a: Pt, b: Pt, c: Pt, d: Pt) -> bool
    requires a_near { IsNear a }
    requires b_near { IsNear b }
    requires c_near { IsNear c }
    requires d_near { IsNear d }
    ensures { IsTrue result ↔ IsBeside a b c d }
{
    if is_left(a, b, c) {
        return is_left(a, b, d);
    }
    if is_right(a, b, c) {
        return is_right(a, b, d);
    }
    false
}

// Whether it is seen at once that the segments don't cross.
fn are_apart(a: Pt, b: Pt, c: Pt, d: Pt) -> bool
    requires a_near { IsNear a }
    requires b_near { IsNear b }
    requires c_near { IsNear c }
    requires d_near { IsNear d }
    ensures { IsTrue result ↔ (AreBoxedApart a b c d ⊎ IsBeside a b c d) }
{
    if are_boxed_apart(a, b, c, d) {
        return true;
    }
    is_beside(a, b, c, d)
}

fn has_end(e: EdgeEnds, v: u32) -> bool
    ensures { IsTrue result ↔ ((v ≡ e.a) ⊎ (v ≡ e.b)) }
{
    v == e.a || v == e.b
}

// Whether `p` is off the line from `a` to `b`.
fn is_off(a: Pt, b: Pt, p: Pt) -> bool
    requires a_near { IsNear a }
    requires b_near { IsNear b }
    requires p_near { IsNear p }
    ensures { IsTrue result ↔ ((pos 0 <ℤ turn a b p) ⊎ (turn a b p <ℤ pos 0)) }
{
    if is_left(a, b, p) {
        return true;
    }
    is_right(a, b, p)
}

// Whether two edges leave a common vertex along different lines.
fn are_forked(points: &[Pt], e: EdgeEnds, k: EdgeEnds) -> bool
    requires near { All IsNear points.now }
    requires first { Joins (length points.now) e }
    requires second { Joins (length points.now) k }
    ensures { IsTrue result → AreCrossing (first_point points.now e) (last_point points.now e) (first_point points.now k) (last_point points.now k) → ⊥ }
{
    let (a, b) = (points[e.a as usize], points[e.b as usize]);
    if has_end(e, k.a) {
        return is_off(a, b, points[k.b as usize]);
    }
    if has_end(e, k.b) {
        return is_off(a, b, points[k.a as usize]);
    }
    false
}

/// Whether the edges `e` and `k`, the one of the lesser number first, share a point that isn't an end of both.
pub fn cross(points: &[Pt], edges: &[EdgeEnds], e: usize, k: usize) -> bool
    requires graph { IsGraph points.now edges.now }
    requires apart { AreApart points.now }
    requires in_order { e < k }
    requires within { k < length edges.now }
    ensures { IsTrue result ↔ CrossingAt points.now edges.now e k }
{
    let (first, second) = (edges[e], edges[k]);
    let (a, b) = (points[first.a as usize], points[first.b as usize]);
    let (c, d) = (points[second.a as usize], points[second.b as usize]);
    if are_forked(points, first, second) {
        return false;
    }
    if are_apart(a, b, c, d) {
        return false;
    }
    are_crossing(a, b, c, d)
}
