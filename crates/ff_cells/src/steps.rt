//! The bars of a folded sheet, ring by ring.
ghost use Rattle.std.specs.Prelude.{◌≡◌, ◌<◌, ◌+◌, length, OnOk, IfOk, MatchOption};
ghost use Rattle.std.specs.List.{All};
ghost use Rattle.ff_whole.specs.Points.{IsNear};
ghost use Rattle.ff_types.specs.declared.patterns.Pattern.{Pattern as PatternRow};
ghost use Rattle.ff_types.specs.FoldedPatterns.{IsFoldedPattern};
ghost use Rattle.ff_cells.specs.Steps.{way_of, IsBarOf, AddsBar, AddsSteps, AreRingBars, AreBars};

use crate::bars::Bar;
use ff_tables::NoMemory;
use ff_types::{Faces, Folded};
use ff_whole::{Pt, next_place, through};
use std::alloc::Global;
use std::cmp::Ordering;

// The bar of a way from point to point with the face on its left. None where the way is vertical.
fn bar(p: Pt, q: Pt, face: u32) -> Option<Bar>
    requires p_near { IsNear p }
    requires q_near { IsNear q }
    ensures { MatchOption result (p.x ≡ q.x) (IsBarOf p q face) }
{
    match p.x.cmp(&q.x) {
        Ordering::Less => Some(Bar {
            lo: p,
            hi: q,
            line: through(p, q),
            face,
            lower: true,
        }),
        Ordering::Greater => Some(Bar {
            lo: q,
            hi: p,
            line: through(q, p),
            face,
            lower: false,
        }),
        Ordering::Equal => None,
    }
}

// Appends the bar of the way, if it has one.
fn push_bar(bars: &mut Vec<Bar>, way: (Pt, Pt), face: u32) -> Result<(), NoMemory>
    requires p_near { IsNear way.0 }
    requires q_near { IsNear way.1 }
    ensures { OnOk result (AddsBar way face bars.old.items bars.new.items) }
{
    if let Some(b) = bar(way.0, way.1, face) {
        bars.push(b)?;
    }
    Ok(())
}

// The way between the points that has the face on its left, where the face is left of `u` to `v` on the sheet.
fn way(up: bool, u: Pt, v: Pt) -> (Pt, Pt)
    ensures { result ≡ way_of up u v }
{
    if up { (u, v) } else { (v, u) }
}

// Appends the bars of a ring.
fn push_ring(
    bars: &mut Vec<Bar>,
    points: &[Pt],
    ring: &[u32],
    up: bool,
    face: u32,
) -> Result<(), NoMemory>
    requires near { All IsNear points.now }
    requires within { All (λ v. v < length points.now) ring.now }
    ensures { OnOk result (AddsSteps points.now ring.now up face
        (length ring.now) bars.old.items bars.new.items) }
{
    for i in 0..ring.len() {
        let u = points[ring[i] as usize];
        let v = points[ring[next_place(ring.len(), i)] as usize];
        push_bar(bars, way(up, u, v), face)?;
    }
    Ok(())
}

// Appends the bars of the face.
fn push_face(bars: &mut Vec<Bar>, faces: &Faces, folded: &Folded, face: u32) -> Result<(), NoMemory>
    requires folded { (pattern : PatternRow) × IsFoldedPattern pattern faces.now folded.now }
    requires within { face < length faces.now.rings }
    requires so_far { AreRingBars folded.now.points faces.now.rings folded.now.up face bars.old.items }
    ensures { OnOk result (AreRingBars folded.now.points faces.now.rings folded.now.up
        (face + 1) bars.new.items) }
{
    let ring = faces.rings.as_slice()[face as usize].as_slice();
    let up = folded.up.as_slice()[face as usize];
    push_ring(bars, folded.points.as_slice(), ring, up, face)
}

/// The bars of all faces.
pub fn bars_of(alloc: Global, faces: &Faces, folded: &Folded) -> Result<Vec<Bar>, NoMemory>
    requires { (pattern : PatternRow) × IsFoldedPattern pattern faces.now folded.now }
    ensures { IfOk result (λ bars. AreBars folded.now.points faces.now.rings folded.now.up bars.items) }
{
    let mut bars = Vec::new(alloc);
    for face in 0..faces.rings.as_slice().len() as u32 {
        push_face(&mut bars, faces, folded, face)?;
    }
    Ok(bars)
}
