//! Whether any two edges cross: the sheet is halved until few edges are left, and these are looked at from west to east.
ghost use Rattle.std.specs.Prelude.{◌≡◌, ◌<◌, ◌↔◌, false, length, IsTrue, IfOk};
ghost use Rattle.std.specs.List.{All};
ghost use Rattle.ff_whole.specs.Convex.{AreApart};
ghost use Rattle.ff_whole.specs.Points.{IsNear};
ghost use Rattle.ff_whole.specs.Sizes.{IsBelow};
ghost use Rattle.ff_types.specs.FaceRefusals.{NoCrossing};
ghost use Rattle.ff_drawn.specs.Graphs.{IsGraph};
ghost use Rattle.ff_drawn.specs.Extents.{IsAroundEdge, AreRound, AreInOrder as AreFromWest, AreNotCrossing, CrossesNone, NoneCross, IsBeyond, Reaches, IsPart};

use crate::extents::{Extent, edge_extents, is_south_of, is_west_of, order};
use crate::segments::cross;
use ff_tables::NoMemory;
use ff_types::EdgeEnds;
use ff_whole::{POINT_SIZE, Pt, high_of, low_of};
use std::alloc::Global;

// So many edges are not halved.
const FEW: usize = 12;

// How often the sheet is halved at most.
const HALVINGS: u32 = 24;

// Whether two edges cross.
fn are_crossing(points: &[Pt], edges: &[EdgeEnds], e: usize, k: usize) -> bool
    requires graph { IsGraph points.now edges.now }
    requires apart { AreApart points.now }
    requires first { e < length edges.now }
    requires second { k < length edges.now }
    ensures { result ≡ false → AreNotCrossing points.now edges.now e k }
{
    if e < k {
        return cross(points, edges, e, k);
    }
    if k < e {
        return cross(points, edges, k, e);
    }
    false
}

// Whether two edges cross, whose extents are known.
fn meet(points: &[Pt], edges: &[EdgeEnds], e: Extent, k: Extent) -> bool
    requires graph { IsGraph points.now edges.now }
    requires apart { AreApart points.now }
    requires first { IsAroundEdge points.now edges.now e }
    requires second { IsAroundEdge points.now edges.now k }
    ensures { result ≡ false → AreNotCrossing points.now edges.now e.number k.number }
{
    if is_south_of(e.high, k.low) {
        return false;
    }
    if is_south_of(k.high, e.low) {
        return false;
    }
    are_crossing(points, edges, e.number as usize, k.number as usize)
}

// The same, where nothing is known of where they lie.
fn meet_anywhere(points: &[Pt], edges: &[EdgeEnds], e: Extent, k: Extent) -> bool
    requires graph { IsGraph points.now edges.now }
    requires apart { AreApart points.now }
    requires first { IsAroundEdge points.now edges.now e }
    requires second { IsAroundEdge points.now edges.now k }
    ensures { result ≡ false → AreNotCrossing points.now edges.now e.number k.number }
{
    if is_west_of(e.high, k.low) {
        return false;
    }
    if is_west_of(k.high, e.low) {
        return false;
    }
    meet(points, edges, e, k)
}

// Whether the edge at a place crosses one of those after it.
fn crosses_later(points: &[Pt], edges: &[EdgeEnds], list: &[Extent], i: usize) -> bool
    requires graph { IsGraph points.now edges.now }
    requires apart { AreApart points.now }
    requires extents { AreRound points.now edges.now list.now }
    requires in_order { AreFromWest list.now }
    requires within { i < length list.now }
    ensures { result ≡ false → CrossesNone points.now edges.now list.now i (length list.now) }
{
    let e = list[i];
    for j in i + 1..list.len() {
        let k = list[j];
        if is_west_of(e.high, k.low) {
            return false;
        }
        if meet(points, edges, e, k) {
            return true;
        }
    }
    false
}

// Whether one of the edges crosses one after it.
fn any_later(points: &[Pt], edges: &[EdgeEnds], list: &[Extent]) -> bool
    requires graph { IsGraph points.now edges.now }
    requires apart { AreApart points.now }
    requires extents { AreRound points.now edges.now list.now }
    requires in_order { AreFromWest list.now }
    ensures { result ≡ false → NoneCross points.now edges.now list.now }
{
    for i in 0..list.len() {
        if crosses_later(points, edges, list, i) {
            return true;
        }
    }
    false
}

// Whether any two edges cross, by their extents in any order, which are put in order.
fn any_among(points: &[Pt], edges: &[EdgeEnds], list: &mut [Extent]) -> bool
    requires graph { IsGraph points.now edges.now }
    requires apart { AreApart points.now }
    requires extents { AreRound points.now edges.now list.old }
    ensures { result ≡ false → NoneCross points.now edges.now list.old }
{
    order(list);
    any_later(points, edges, list)
}

// Whether the edge at a place crosses one of those after it, in any order.
fn crosses_another(points: &[Pt], edges: &[EdgeEnds], list: &[Extent], i: usize) -> bool
    requires graph { IsGraph points.now edges.now }
    requires apart { AreApart points.now }
    requires extents { AreRound points.now edges.now list.now }
    requires within { i < length list.now }
    ensures { result ≡ false → CrossesNone points.now edges.now list.now i (length list.now) }
{
    let e = list[i];
    for j in i + 1..list.len() {
        if meet_anywhere(points, edges, e, list[j]) {
            return true;
        }
    }
    false
}

// Whether two of a few edges cross.
fn any_pair(points: &[Pt], edges: &[EdgeEnds], list: &[Extent]) -> bool
    requires graph { IsGraph points.now edges.now }
    requires apart { AreApart points.now }
    requires extents { AreRound points.now edges.now list.now }
    ensures { result ≡ false → NoneCross points.now edges.now list.now }
{
    for i in 0..list.len() {
        if crosses_another(points, edges, list, i) {
            return true;
        }
    }
    false
}

fn halfway(a: i64, b: i64) -> i64
    requires a_size { IsBelow POINT_SIZE a }
    requires b_size { IsBelow POINT_SIZE b }
    ensures { IsBelow POINT_SIZE result }
{
    (a + b) / 2
}

fn middle_of(low: Pt, high: Pt) -> Pt
    requires low { IsNear low }
    requires high { IsNear high }
    ensures { IsNear result }
{
    Pt {
        x: halfway(low.x, high.x),
        y: halfway(low.y, high.y),
    }
}

// Whether a box is wider than it is high.
fn is_wide(low: Pt, high: Pt) -> bool
    requires low { IsNear low }
    requires high { IsNear high }
{
    high.x - low.x > high.y - low.y
}

// Whether an extent is east of an upright line through a point, or north of a level one.
fn is_beyond(e: Extent, at: Pt, is_upright: bool) -> bool
    requires near { IsNear e.low }
    requires at { IsNear at }
    ensures { IsTrue result ↔ IsBeyond is_upright at e }
{
    if is_upright {
        return is_west_of(at, e.low);
    }
    is_south_of(at, e.low)
}

// Whether a part of it is.
fn reaches(e: Extent, at: Pt, is_upright: bool) -> bool
    requires near { IsNear e.high }
    requires at { IsNear at }
    ensures { IsTrue result ↔ Reaches is_upright at e }
{
    if is_upright {
        return is_west_of(at, e.high);
    }
    is_south_of(at, e.high)
}

// The extents that aren't beyond the line.
fn lower_part(
    alloc: Global,
    points: &[Pt],
    edges: &[EdgeEnds],
    list: &[Extent],
    at: Pt,
    is_upright: bool,
) -> Result<Vec<Extent>, NoMemory>
    requires extents { AreRound points.now edges.now list.now }
    requires at { IsNear at }
    ensures { IfOk result (λ part. IsPart (λ e. IsBeyond is_upright at e → ⊥) list.now part.items) }
{
    let _ = (points.len(), edges.len());
    let mut part = Vec::with_capacity(alloc, list.len())?;
    for i in 0..list.len() {
        if is_beyond(list[i], at, is_upright) {
            continue;
        }
        part.push(list[i])?;
    }
    Ok(part)
}

// The extents that reach beyond it.
fn upper_part(
    alloc: Global,
    points: &[Pt],
    edges: &[EdgeEnds],
    list: &[Extent],
    at: Pt,
    is_upright: bool,
) -> Result<Vec<Extent>, NoMemory>
    requires extents { AreRound points.now edges.now list.now }
    requires at { IsNear at }
    ensures { IfOk result (λ part. IsPart (Reaches is_upright at) list.now part.items) }
{
    let _ = (points.len(), edges.len());
    let mut part = Vec::with_capacity(alloc, list.len())?;
    for i in 0..list.len() {
        if !reaches(list[i], at, is_upright) {
            continue;
        }
        part.push(list[i])?;
    }
    Ok(part)
}

// A box of the sheet, and how often it may be halved.
#[derive(Clone, Copy)]
struct Window {
    low: Pt,
    high: Pt,
    halvings: u32,
}

// The point with the first's x and the second's y, or the other way round.
fn mixed(p: Pt, q: Pt, is_first: bool) -> Pt
    requires p_near { IsNear p }
    requires q_near { IsNear q }
    ensures { IsNear result }
{
    if is_first {
        return Pt { x: p.x, y: q.y };
    }
    Pt { x: q.x, y: p.y }
}

// The half of the box up to the line.
fn lower_half(window: Window, at: Pt, is_upright: bool) -> Window
    requires low { IsNear window.low }
    requires high { IsNear window.high }
    requires at { IsNear at }
    requires some { 0 < window.halvings }
    ensures low { IsNear result.low }
    ensures high { IsNear result.high }
    ensures fewer { result.halvings < window.halvings }
{
    Window {
        low: window.low,
        high: mixed(at, window.high, is_upright),
        halvings: window.halvings - 1,
    }
}

// The half beyond it.
fn upper_half(window: Window, at: Pt, is_upright: bool) -> Window
    requires low { IsNear window.low }
    requires high { IsNear window.high }
    requires at { IsNear at }
    requires some { 0 < window.halvings }
    ensures low { IsNear result.low }
    ensures high { IsNear result.high }
    ensures fewer { result.halvings < window.halvings }
{
    Window {
        low: mixed(at, window.low, is_upright),
        high: window.high,
        halvings: window.halvings - 1,
    }
}

// Whether any two of the edges with these extents cross, which are within the box.
fn any_within(
    alloc: Global,
    points: &[Pt],
    edges: &[EdgeEnds],
    list: &mut [Extent],
    window: Window,
) -> Result<bool, NoMemory>
    requires graph { IsGraph points.now edges.now }
    requires apart { AreApart points.now }
    requires extents { AreRound points.now edges.now list.old }
    requires low { IsNear window.low }
    requires high { IsNear window.high }
    ensures { IfOk result (λ any. any ≡ false → NoneCross points.now edges.now list.old) }
{
    if list.len() <= FEW {
        return Ok(any_pair(points, edges, list));
    }
    if window.halvings == 0 {
        return Ok(any_among(points, edges, list));
    }
    let at = middle_of(window.low, window.high);
    let is_upright = is_wide(window.low, window.high);
    let mut lower = lower_part(alloc, points, edges, list, at, is_upright)?;
    let mut upper = upper_part(alloc, points, edges, list, at, is_upright)?;
    if lower.len() + upper.len() > list.len() + list.len() / 4 {
        return Ok(any_among(points, edges, list));
    }
    let (first, last) = (
        lower_half(window, at, is_upright),
        upper_half(window, at, is_upright),
    );
    if any_within(alloc, points, edges, lower.as_mut_slice(), first)? {
        return Ok(true);
    }
    any_within(alloc, points, edges, upper.as_mut_slice(), last)
}

// A point of the box round the points: the one with the least x and y.
fn low_end(points: &[Pt]) -> Pt
    requires near { All IsNear points.now }
    ensures { IsNear result }
{
    let mut low = Pt { x: 0, y: 0 };
    for i in 0..points.len() {
        low = if i == 0 {
            points[0]
        } else {
            low_of(low, points[i])
        };
    }
    low
}

fn high_end(points: &[Pt]) -> Pt
    requires near { All IsNear points.now }
    ensures { IsNear result }
{
    let mut high = Pt { x: 0, y: 0 };
    for i in 0..points.len() {
        high = if i == 0 {
            points[0]
        } else {
            high_of(high, points[i])
        };
    }
    high
}

/// Whether any two edges cross: where it is false, none do.
pub fn any_crossing(alloc: Global, points: &[Pt], edges: &[EdgeEnds]) -> Result<bool, NoMemory>
    requires graph { IsGraph points.now edges.now }
    requires apart { AreApart points.now }
    ensures { IfOk result (λ any. any ≡ false → NoCrossing points.now edges.now) }
{
    let mut list = edge_extents(alloc, points, edges)?;
    let whole = Window {
        low: low_end(points),
        high: high_end(points),
        halvings: HALVINGS,
    };
    any_within(alloc, points, edges, list.as_mut_slice(), whole)
}
