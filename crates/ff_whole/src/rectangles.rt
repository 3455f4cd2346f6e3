//! The corners of the least upright rectangle round two points.
ghost use Rattle.std.specs.Prelude.{◌≤ℤ◌};
ghost use Rattle.ff_whole.specs.Points.{IsNear};
ghost use Rattle.ff_whole.specs.Sizes.{IsBelow};

use crate::POINT_SIZE;
use crate::points::Pt;

fn lesser(a: i64, b: i64) -> i64
    requires a_size { IsBelow POINT_SIZE a }
    requires b_size { IsBelow POINT_SIZE b }
    ensures first { result ≤ℤ a }
    ensures second { result ≤ℤ b }
    ensures size { IsBelow POINT_SIZE result }
{
    if a < b { a } else { b }
}

fn greater(a: i64, b: i64) -> i64
    requires a_size { IsBelow POINT_SIZE a }
    requires b_size { IsBelow POINT_SIZE b }
    ensures first { a ≤ℤ result }
    ensures second { b ≤ℤ result }
    ensures size { IsBelow POINT_SIZE result }
{
    if a < b { b } else { a }
}

/// The lower left corner of two points: it has the lesser x and the lesser y of them.
pub fn low_of(p: Pt, q: Pt) -> Pt
    requires p_near { IsNear p }
    requires q_near { IsNear q }
    ensures near { IsNear result }
    ensures first_x { result.x ≤ℤ p.x }
    ensures second_x { result.x ≤ℤ q.x }
    ensures first_y { result.y ≤ℤ p.y }
    ensures second_y { result.y ≤ℤ q.y }
{
    Pt {
        x: lesser(p.x, q.x),
        y: lesser(p.y, q.y),
    }
}

/// The upper right corner of two points: it has the greater x and the greater y of them.
pub fn high_of(p: Pt, q: Pt) -> Pt
    requires p_near { IsNear p }
    requires q_near { IsNear q }
    ensures near { IsNear result }
    ensures first_x { p.x ≤ℤ result.x }
    ensures second_x { q.x ≤ℤ result.x }
    ensures first_y { p.y ≤ℤ result.y }
    ensures second_y { q.y ≤ℤ result.y }
{
    Pt {
        x: greater(p.x, q.x),
        y: greater(p.y, q.y),
    }
}
