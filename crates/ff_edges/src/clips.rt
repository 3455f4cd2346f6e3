//! What of a way from point to point is inside a face.
ghost use Rattle.std.specs.Prelude.{pos, ◌≡◌, ◌≢◌, ◌<◌, ◌<ℤ◌, ◌≤ℤ◌, ◌↔◌, ℕ, length, IsTrue, MatchOption};
ghost use Rattle.std.specs.List.{All};
ghost use Rattle.ff_whole.specs.Points.{IsNear};
ghost use Rattle.ff_whole.specs.Places.{height, place_of as place, through as line_through};
ghost use Rattle.ff_whole.specs.Convex.{point_at};
ghost use Rattle.ff_whole.specs.Sizes.{IsLine, IsSmallPlace};
ghost use Rattle.ff_types.specs.Rings.{corner, after};
ghost use Rattle.ff_edges.specs.Clips.{IsPart, IsClip, IsPartInside, IsNoneInside, AreNotLeft, IsPast, border_line};

use crate::sides::is_on_or_left;
use ff_whole::{Line, Place, Pt, meet, next_place, side_of, through};

fn place_of(p: Pt) -> Place
    ensures { result ≡ place p }
{
    Place {
        x: p.x as i128,
        y: p.y as i128,
        w: 1,
    }
}

fn is_left(line: Line, place: Place) -> bool
    requires line_size { IsLine line }
    requires place_size { IsSmallPlace place }
    ensures { IsTrue result ↔ (pos 0 <ℤ height line place) }
{
    side_of(line, place) > 0
}

fn is_right(line: Line, place: Place) -> bool
    requires line_size { IsLine line }
    requires place_size { IsSmallPlace place }
    ensures { IsTrue result ↔ (height line place <ℤ pos 0) }
{
    side_of(line, place) < 0
}

// What `clip` gives where the first place is right of the line.
fn clip_first(p: Pt, q: Pt, line: Line, first: Place, second: Place) -> Option<(Place, Place)>
    requires p_near { IsNear p }
    requires q_near { IsNear q }
    requires apart { p ≢ q }
    requires line_size { IsLine line }
    requires part { IsPart p q first second }
    requires right { height line first <ℤ pos 0 }
    ensures { MatchOption result (height line second ≤ℤ pos 0) (λ way. IsClip p q line first second way.0 way.1) }
{
    if !is_left(line, second) {
        return None;
    }
    match meet(through(p, q), line) {
        Some(start) => Some((start, second)),
        None => None,
    }
}

// What `clip` gives where the second place is right of the line, and the first isn't.
fn clip_second(p: Pt, q: Pt, line: Line, first: Place, second: Place) -> Option<(Place, Place)>
    requires p_near { IsNear p }
    requires q_near { IsNear q }
    requires apart { p ≢ q }
    requires line_size { IsLine line }
    requires part { IsPart p q first second }
    requires right { height line second <ℤ pos 0 }
    ensures { MatchOption result (height line first ≤ℤ pos 0) (λ way. IsClip p q line first second way.0 way.1) }
{
    if !is_left(line, first) {
        return None;
    }
    match meet(through(p, q), line) {
        Some(end) => Some((first, end)),
        None => None,
    }
}

// The part of the way from `p` to `q` between two of its places, without what is right of the line. None exactly where
// neither place is left of it.
fn clip(p: Pt, q: Pt, line: Line, first: Place, second: Place) -> Option<(Place, Place)>
    requires p_near { IsNear p }
    requires q_near { IsNear q }
    requires apart { p ≢ q }
    requires line_size { IsLine line }
    requires part { IsPart p q first second }
    ensures { MatchOption result ((height line first ≤ℤ pos 0) × (height line second ≤ℤ pos 0))
        (λ way. IsClip p q line first second way.0 way.1) }
{
    if is_right(line, first) {
        return clip_first(p, q, line, first, second);
    }
    if is_right(line, second) {
        return clip_second(p, q, line, first, second);
    }
    if is_left(line, first) {
        return Some((first, second));
    }
    if is_left(line, second) {
        return Some((first, second));
    }
    None
}

// The line of the ring's edge at the place `i`, with the inner side of a face that lies up or down on its left.
fn border_of(points: &[Pt], up: bool, ring: &[u32], i: usize) -> Line
    requires near { All IsNear points.now }
    requires below { All (λ v. v < length points.now) ring.now }
    requires within { i < length ring.now }
    requires apart { point_at points.now (corner ring.now i) ≢ point_at points.now (after ring.now i) }
    ensures value { result ≡ border_line points.now up ring.now i }
    ensures size { IsLine result }
{
    let u = points[ring[i] as usize];
    let v = points[ring[next_place(ring.len(), i)] as usize];
    if up { through(u, v) } else { through(v, u) }
}

// Whether neither `p` nor `q` is left of the way from `u` to `v`.
fn are_not_left(u: Pt, v: Pt, p: Pt, q: Pt) -> bool
    requires u_near { IsNear u }
    requires v_near { IsNear v }
    requires p_near { IsNear p }
    requires q_near { IsNear q }
    ensures { IsTrue result ↔ AreNotLeft (line_through u v) p q }
{
    is_on_or_left(v, u, p) && is_on_or_left(v, u, q)
}

// Whether neither `p` nor `q` is on the inner side of the ring's edge at the place `i`.
fn are_past(points: &[Pt], up: bool, ring: &[u32], i: usize, p: Pt, q: Pt) -> bool
    requires near { All IsNear points.now }
    requires below { All (λ v. v < length points.now) ring.now }
    requires within { i < length ring.now }
    requires p_near { IsNear p }
    requires q_near { IsNear q }
    ensures { IsTrue result ↔ IsPast points.now up ring.now i p q }
{
    let u = points[ring[i] as usize];
    let v = points[ring[next_place(ring.len(), i)] as usize];
    if up {
        are_not_left(u, v, p, q)
    } else {
        are_not_left(v, u, p, q)
    }
}

// Whether that is so at any of its edges. A quick test: no place of the way is inside then.
fn are_outside(points: &[Pt], up: bool, ring: &[u32], p: Pt, q: Pt) -> bool
    requires near { All IsNear points.now }
    requires below { All (λ v. v < length points.now) ring.now }
    requires p_near { IsNear p }
    requires q_near { IsNear q }
    requires apart { p ≢ q }
    ensures { IsTrue result → IsNoneInside points.now up ring.now p q }
{
    for i in 0..ring.len() {
        if are_past(points, up, ring, i, p, q) {
            return true;
        }
    }
    false
}

/// The ends of what of the way from `p` to `q` is inside a face that lies up or down, the first nearer to `p`. None
/// exactly where no place of the way is inside.
pub fn part_inside(points: &[Pt], up: bool, ring: &[u32], p: Pt, q: Pt) -> Option<(Place, Place)>
    requires near { All IsNear points.now }
    requires below { All (λ v. v < length points.now) ring.now }
    requires steps_apart { (k : ℕ) → k < length ring.now → point_at points.now (corner ring.now k) ≢ point_at points.now (after ring.now k) }
    requires p_near { IsNear p }
    requires q_near { IsNear q }
    requires apart { p ≢ q }
    ensures { MatchOption result (IsNoneInside points.now up ring.now p q)
        (λ way. IsPartInside points.now up ring.now (length ring.now) p q way.0 way.1) }
{
    if are_outside(points, up, ring, p, q) {
        return None;
    }
    let mut way = (place_of(p), place_of(q));
    for i in 0..ring.len() {
        let border = border_of(points, up, ring, i);
        match clip(p, q, border, way.0, way.1) {
            Some(clipped) => way = clipped,
            None => return None,
        }
    }
    Some(way)
}
