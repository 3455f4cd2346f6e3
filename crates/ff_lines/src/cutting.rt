//! The edges of a drawing: each line is cut at the vertices that are on it.
ghost use Rattle.std.specs.Prelude.{◌≡◌, ◌↔◌, ◌+◌, ◌<◌, ◌≤◌, pos, length, replicate, None, IfOk, IsTrue, MatchOption, OnOk};
ghost use Rattle.std.specs.List.{All};
ghost use Rattle.ff_whole.specs.Places.{place_of};
ghost use Rattle.ff_whole.specs.Points.{IsNear, turn};
ghost use Rattle.ff_types.specs.declared.limits.TheConstants.{MOST_VERTICES};
ghost use Rattle.ff_lines.specs.Lines.{IsOnLine, IsProper, NoneStops};
ghost use Rattle.ff_lines.specs.Drawings.{AreEdges, AreVertices};
ghost use Rattle.ff_lines.specs.Heads.{AreCursors, AreEdgesTo, AreHeads, AreMoreHeads, IsCursor, IsHeadAt, IsLast, IsNext, IsOnAt};

use crate::items::LineItem;
use crate::pairs::is_level;
use ff_edges::{earlier, is_before, later};
use ff_tables::NoMemory;
use ff_types::{EdgeEnds, Mark};
use ff_whole::Pt;
use std::alloc::Global;

// Whether a point is on a line.
fn is_on(l: LineItem, v: Pt) -> bool
    requires line { IsProper l }
    requires near { IsNear v }
    ensures { IsTrue result ↔ IsOnLine l (place_of v) }
{
    let lo = earlier(l.p, l.q);
    let hi = later(l.p, l.q);
    if is_before(v, lo) {
        return false;
    }
    if is_before(hi, v) {
        return false;
    }
    is_level(l.p, l.q, v)
}

// The next point of a line after the one with number `a`.
fn next_on(l: LineItem, points: &[Pt], a: usize) -> Option<usize>
    requires line { IsProper l }
    requires near { All IsNear points.now }
    requires within { a < length points.now }
    requires on { IsOnAt l points.now a }
    ensures { MatchOption result (IsLast l points.now a) (λ b. IsNext l points.now a b) }
{
    for b in a + 1..points.len() {
        if is_on(l, points[b]) {
            return Some(b);
        }
    }
    None
}

// The number of a line's first point.
fn first_on(l: LineItem, points: &[Pt]) -> usize
    requires line { IsProper l }
    requires near { All IsNear points.now }
    ensures { IsCursor l points.now 0 result }
{
    for b in 0..points.len() {
        if is_on(l, points[b]) {
            return b;
        }
    }
    points.len()
}

// For each line the number of its first point.
fn first_cursors(alloc: Global, lines: &[LineItem], points: &[Pt]) -> Result<Vec<usize>, NoMemory>
    requires proper { All IsProper lines.now }
    requires near { All IsNear points.now }
    ensures { IfOk result (λ cursors. AreCursors lines.now 0 points.now 0 cursors.items) }
{
    let mut cursors = Vec::with_capacity(alloc, lines.len())?;
    for i in 0..lines.len() {
        cursors.push(first_on(lines[i], points))?;
    }
    Ok(cursors)
}

// The number of the next point of a line after the one with number `a`, or how many points there are.
fn cursor_after(l: LineItem, points: &[Pt], a: usize, heads: &mut Vec<Option<Mark>>) -> usize
    requires line { IsProper l }
    requires near { All IsNear points.now }
    requires within { a < length points.now }
    requires on { IsOnAt l points.now a }
    requires as_many { length heads.old.items ≡ length points.now }
    ensures cursor { IsCursor l points.now (a + 1) result }
    ensures heads { AreMoreHeads l points.now a heads.old.items heads.new.items }
{
    match next_on(l, points, a) {
        Some(b) => {
            heads[b] = Some(l.mark);
            b
        }
        None => points.len(),
    }
}

// Notes where a line goes on from the point with number `a`.
fn take_head(
    lines: &[LineItem],
    i: usize,
    points: &[Pt],
    a: usize,
    heads: &mut Vec<Option<Mark>>,
    cursors: &mut Vec<usize>,
)
    requires proper { All IsProper lines.now }
    requires near { All IsNear points.now }
    requires within { i < length lines.now }
    requires point_within { a < length points.now }
    requires heads { AreHeads lines.now i points.now a heads.old.items }
    requires cursors { AreCursors lines.now i points.now a cursors.old.items }
    ensures heads { AreHeads lines.now (i + 1) points.now a heads.new.items }
    ensures cursors { AreCursors lines.now (i + 1) points.now a cursors.new.items }
{
    let _ = (lines.len(), points.len());
    if cursors[i] != a {
        return;
    }
    cursors[i] = cursor_after(lines[i], points, a, heads);
}

// No letter for each point.
fn no_heads(alloc: Global, count: usize) -> Result<Vec<Option<Mark>>, NoMemory>
    ensures { IfOk result (λ heads. heads.items ≡ replicate count None) }
{
    let heads = vec![in alloc; None; count]?;
    Ok(heads)
}

// For each point the letter of a line on which it is the next one after `a`. The cursors go on past `a`.
fn heads_of(
    alloc: Global,
    lines: &[LineItem],
    points: &[Pt],
    a: usize,
    cursors: &mut Vec<usize>,
) -> Result<Vec<Option<Mark>>, NoMemory>
    requires proper { All IsProper lines.now }
    requires near { All IsNear points.now }
    requires within { a < length points.now }
    requires cursors { AreCursors lines.now 0 points.now a cursors.old.items }
    ensures heads { IfOk result (λ heads. AreHeads lines.now (length lines.now) points.now a heads.items) }
    ensures cursors { OnOk result (AreCursors lines.now 0 points.now (a + 1) cursors.new.items) }
{
    let mut heads = no_heads(alloc, points.len())?;
    for i in 0..lines.len() {
        take_head(lines, i, points, a, &mut heads, cursors);
    }
    Ok(heads)
}

/// Edges, each with its letter.
#[derive(Drop)]
pub struct Edges {
    pub edges: Vec<EdgeEnds>,
    pub marks: Vec<Mark>,
}

// Adds the edge from `a` to `b`, where there is one.
fn push_head(
    lines: &[LineItem],
    points: &[Pt],
    a: usize,
    b: usize,
    head: Option<Mark>,
    drawn: &mut Edges,
) -> Result<(), NoMemory>
    requires few { length points.now ≤ MOST_VERTICES }
    requires order { a < b }
    requires within { b < length points.now }
    requires head { IsHeadAt lines.now points.now a b head }
    requires edges { AreEdgesTo lines.now points.now a b drawn.old.edges.items drawn.old.marks.items }
    ensures { OnOk result (AreEdgesTo lines.now points.now a (b + 1) drawn.new.edges.items drawn.new.marks.items) }
{
    let _ = (lines.len(), points.len());
    let Some(mark) = head else {
        return Ok(());
    };
    drawn.edges.push(EdgeEnds {
        a: a as u32,
        b: b as u32,
    })?;
    drawn.marks.push(mark)?;
    Ok(())
}

// Adds the edges from a vertex to later ones.
fn push_heads(
    lines: &[LineItem],
    points: &[Pt],
    a: usize,
    heads: &[Option<Mark>],
    drawn: &mut Edges,
) -> Result<(), NoMemory>
    requires proper { All IsProper lines.now }
    requires none { NoneStops lines.now }
    requires vertices { AreVertices lines.now points.now }
    requires near { All IsNear points.now }
    requires few { length points.now ≤ MOST_VERTICES }
    requires within { a < length points.now }
    requires heads { AreHeads lines.now (length lines.now) points.now a heads.now }
    requires edges { AreEdgesTo lines.now points.now a (a + 1) drawn.old.edges.items drawn.old.marks.items }
    ensures { OnOk result (AreEdgesTo lines.now points.now (a + 1) (a + 1 + 1) drawn.new.edges.items drawn.new.marks.items) }
{
    for b in a + 1..points.len() {
        push_head(lines, points, a, b, heads[b], drawn)?;
    }
    Ok(())
}

/// The edges of the drawing with these vertices.
pub fn edges_of(alloc: Global, lines: &[LineItem], points: &[Pt]) -> Result<Edges, NoMemory>
    requires proper { All IsProper lines.now }
    requires none { NoneStops lines.now }
    requires vertices { AreVertices lines.now points.now }
    requires near { All IsNear points.now }
    requires few { length points.now ≤ MOST_VERTICES }
    ensures { IfOk result (λ drawn. AreEdges lines.now points.now drawn.edges.items drawn.marks.items) }
{
    let mut drawn = Edges {
        edges: Vec::new(alloc),
        marks: Vec::new(alloc),
    };
    let mut cursors = first_cursors(alloc, lines, points)?;
    for a in 0..points.len() {
        let heads = heads_of(alloc, lines, points, a, &mut cursors)?;
        push_heads(lines, points, a, heads.as_slice(), &mut drawn)?;
    }
    Ok(drawn)
}
