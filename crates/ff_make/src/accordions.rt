//! Accordions: strips of panels whose creases are folded by turns.
ghost use Rattle.std.specs.Prelude.{◌≡◌, ◌+◌, ◌*◌, ◌<◌, ◌≤◌, pos, length, IfOk};
ghost use Rattle.ff_make.specs.Accordions.{IsVertex, IsEdge, IsMark, AreVertices, AreEdges, AreMarks, IsAccordion};

use ff_tables::{Items, NoMemory};
use ff_types::{EdgeEnds, Mark, Pattern};
use ff_whole::Pt;
use std::alloc::Global;

/// The vertex with this number: along the lower side, and then along the upper side.
fn vertex(count: u32, v: u32) -> Pt
    requires { count ≤ 400 }
    ensures { IsVertex count v result }
{
    if v <= count {
        return Pt {
            x: i64::from(v),
            y: 0,
        };
    }
    Pt {
        x: i64::from(v - (count + 1)),
        y: 1,
    }
}

/// The ends of the edge with this number: round the strip, and then the creases.
fn edge(count: u32, e: u32) -> EdgeEnds
    requires few { count ≤ 400 }
    requires inside { e < 3 * count + 1 }
    ensures { IsEdge count e result }
{
    let last = 2 * count + 1;
    if e < count {
        EdgeEnds { a: e, b: e + 1 }
    } else if e == count {
        EdgeEnds { a: count, b: last }
    } else if e < last {
        let a = last + count + 1 - e;
        EdgeEnds { a, b: a - 1 }
    } else if e == last {
        EdgeEnds { a: count + 1, b: 0 }
    } else {
        let i = e - last;
        EdgeEnds {
            a: i,
            b: count + 1 + i,
        }
    }
}

/// The mark of the edge with this number: border, and for the creases by turns valley and mountain.
fn mark(count: u32, e: u32) -> Mark
    requires { count ≤ 400 }
    ensures { IsMark count e result }
{
    let last = 2 * count + 1;
    if e <= last {
        return Mark::B;
    }
    if (e - last) % 2 == 1 {
        Mark::V
    } else {
        Mark::M
    }
}

fn vertices(alloc: Global, count: u32) -> Result<Vec<Pt>, NoMemory>
    requires { count ≤ 400 }
    ensures { IfOk result (λ list. AreVertices count (2 * count + 2) list.items) }
{
    let mut list = Vec::new(alloc);
    for v in 0..2 * count + 2 {
        list.push(vertex(count, v))?;
    }
    Ok(list)
}

fn edges(alloc: Global, count: u32) -> Result<Vec<EdgeEnds>, NoMemory>
    requires { count ≤ 400 }
    ensures { IfOk result (λ list. AreEdges count (3 * count + 1) list.items) }
{
    let mut list = Vec::new(alloc);
    for e in 0..3 * count + 1 {
        list.push(edge(count, e))?;
    }
    Ok(list)
}

fn marks(alloc: Global, count: u32) -> Result<Vec<Mark>, NoMemory>
    requires { count ≤ 400 }
    ensures { IfOk result (λ list. AreMarks count (3 * count + 1) list.items) }
{
    let mut list = Vec::new(alloc);
    for e in 0..3 * count + 1 {
        list.push(mark(count, e))?;
    }
    Ok(list)
}

/// The accordion of `count` panels: a strip of panels of width 1, whose creases are by turns valleys and mountains.
pub fn make(alloc: Global, count: u32) -> Result<Pattern, NoMemory>
    requires some { 0 < count }
    requires few { count ≤ 400 }
    ensures { IfOk result (λ p. IsAccordion count p.points p.edges p.marks) }
{
    let points = Items::of(vertices(alloc, count)?);
    let edges = Items::of(edges(alloc, count)?);
    let marks = Some(Items::of(marks(alloc, count)?));
    Ok(Pattern {
        points,
        edges,
        marks,
    })
}
