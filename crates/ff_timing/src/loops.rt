//! Each point or place over the line through each two neighbours.
ghost use Rattle.std.specs.Prelude.{◌<◌};
ghost use Rattle.std.specs.List.{All};
ghost use Rattle.ff_whole.specs.Points.{IsNear};
ghost use Rattle.ff_whole.specs.Sizes.{IsLine, IsSmallPlace};

use ff_whole::{Line, Place, Pt, orient, side_of, through};

fn lefts_of(points: &[Pt], p: Pt, q: Pt) -> u64
    requires near { All IsNear points.now }
    requires p_near { IsNear p }
    requires q_near { IsNear q }
{
    let mut count = 0u64;
    for i in 0..points.len() {
        if orient(p, q, points[i]) > 0 {
            count = count.wrapping_add(1);
        }
    }
    count
}

/// How many points are left of a line, over all lines through two neighbours.
pub fn lefts(points: &[Pt]) -> u64
    requires near { All IsNear points.now }
{
    let mut count = 0u64;
    for i in 1..points.len() {
        count = count.wrapping_add(lefts_of(points, points[i - 1], points[i]));
    }
    count
}

// Whether each segment's ends are on different sides of the other, or one of them is on its line.
fn are_crossing(a: Pt, b: Pt, c: Pt, d: Pt) -> bool
    requires a_near { IsNear a }
    requires b_near { IsNear b }
    requires c_near { IsNear c }
    requires d_near { IsNear d }
{
    orient(a, b, c) != orient(a, b, d) && orient(c, d, a) != orient(c, d, b)
}

fn crossings_of(points: &[Pt], a: Pt, b: Pt, from: usize) -> u64
    requires near { All IsNear points.now }
    requires a_near { IsNear a }
    requires b_near { IsNear b }
    requires some { 0 < from }
{
    let mut count = 0u64;
    for i in from..points.len() {
        if are_crossing(a, b, points[i - 1], points[i]) {
            count = count.wrapping_add(1);
        }
    }
    count
}

/// How many pairs of the segments between neighbours cross, those that touch counted too.
pub fn crossings(points: &[Pt]) -> u64
    requires near { All IsNear points.now }
{
    let mut count = 0u64;
    for i in 1..points.len() {
        count = count.wrapping_add(crossings_of(points, points[i - 1], points[i], i + 1));
    }
    count
}

fn lefts_of_line(places: &[Place], line: Line) -> u64
    requires places_size { All IsSmallPlace places.now }
    requires line_size { IsLine line }
{
    let mut count = 0u64;
    for i in 0..places.len() {
        if side_of(line, places[i]) > 0 {
            count = count.wrapping_add(1);
        }
    }
    count
}

/// How many places are left of a line, over all lines through two neighbours that differ.
pub fn lefts_of_lines(points: &[Pt], places: &[Place]) -> u64
    requires near { All IsNear points.now }
    requires places_size { All IsSmallPlace places.now }
{
    let mut count = 0u64;
    for i in 1..points.len() {
        if points[i - 1] != points[i] {
            count = count.wrapping_add(lefts_of_line(places, through(points[i - 1], points[i])));
        }
    }
    count
}
