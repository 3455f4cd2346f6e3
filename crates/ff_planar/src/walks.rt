//! Walks along the darts of a drawing.
ghost use Rattle.std.specs.Prelude.{◌≡◌, ◌<◌, ◌≤◌, ◌^◌, ◌↔◌, ◌<ℤ◌, pos, IsTrue, ℕ, length, slice_index, IfOk};
ghost use Rattle.std.specs.List.{All};
ghost use Rattle.ff_whole.specs.Points.{IsNear, cross};
ghost use Rattle.ff_whole.specs.Sizes.{IsBelow};
ghost use Rattle.ff_types.specs.Areas.{area};
ghost use Rattle.ff_drawn.specs.Graphs.{IsGraph};
ghost use Rattle.ff_drawn.specs.Darts.{AreStarts};
ghost use Rattle.ff_drawn.specs.Drawn.{IsDrawnBy};
ghost use Rattle.ff_planar.specs.Orbits.{AreNexts, IsOneToOne, IsOrbit, tails};

use crate::turns::next_of;
use ff_drawn::Dart;
use ff_tables::NoMemory;
use ff_types::EdgeEnds;
use ff_whole::{AREA_SIZE, Pt, next_place};
use std::alloc::Global;

/// For each dart the one along which a walk goes on.
pub fn nexts_of(
    alloc: Global,
    points: &[Pt],
    edges: &[EdgeEnds],
    darts: &[Dart],
    starts: &[u32],
) -> Result<Vec<u32>, NoMemory>
    requires graph { IsGraph points.now edges.now }
    requires drawn { IsDrawnBy points.now edges.now darts.now }
    requires starts { AreStarts darts.now (length points.now) starts.now }
    requires few { length darts.now < 2 ^ 32 }
    ensures { IfOk result (λ nexts. AreNexts points.now edges.now darts.now nexts.items) }
{
    let mut nexts = Vec::new(alloc);
    for d in 0..darts.len() {
        nexts.push(next_of(points, edges, darts, starts, d) as u32)?;
    }
    Ok(nexts)
}

/// The darts of the walk that takes the dart `start`, from it on.
pub fn orbit_of(alloc: Global, nexts: &[u32], start: u32) -> Result<Vec<u32>, NoMemory>
    requires within { start < length nexts.now }
    requires table { IsOneToOne nexts.now }
    ensures { IfOk result (λ orbit. IsOrbit nexts.now start orbit.items) }
{
    let mut orbit = Vec::new(alloc);
    orbit.push(start)?;
    let mut d = nexts[start as usize];
    while d != start {
        orbit.push(d)?;
        d = nexts[d as usize];
    }
    Ok(orbit)
}

/// The vertices that the darts with these numbers leave.
pub fn tails_of(alloc: Global, darts: &[Dart], orbit: &[u32]) -> Result<Vec<u32>, NoMemory>
    requires { All (λ d. d < length darts.now) orbit.now }
    ensures { IfOk result (λ vertices. vertices.items ≡ tails darts.now orbit.now) }
{
    let mut vertices = Vec::new(alloc);
    for d in orbit {
        vertices.push(darts[*d as usize].tail)?;
    }
    Ok(vertices)
}

// The cross product of two points, seen from the origin.
fn sweep(p: Pt, q: Pt) -> i64
    requires p_near { IsNear p }
    requires q_near { IsNear q }
    ensures value { result ≡ cross p q }
    ensures size { IsBelow AREA_SIZE result }
{
    p.x * q.y - p.y * q.x
}

// Twice the signed area inside a closed list of vertices.
fn area_of(points: &[Pt], ring: &[u32]) -> i64
    requires near { All IsNear points.now }
    requires vertices { All (λ v. v < length points.now) ring.now }
    requires few { length ring.now ≤ 2 ^ 15 }
    ensures { result ≡ area points.now ring.now }
{
    let n = ring.len();
    let mut area = 0;
    for i in 0..n {
        let (u, v) = (ring[i], ring[next_place(n, i)]);
        area += sweep(points[u as usize], points[v as usize]);
    }
    area
}

/// Whether a closed list of vertices goes round counterclockwise: its area is positive.
pub fn goes_round(points: &[Pt], ring: &[u32]) -> bool
    requires near { All IsNear points.now }
    requires vertices { All (λ v. v < length points.now) ring.now }
    requires few { length ring.now ≤ 2 ^ 15 }
    ensures { IsTrue result ↔ (pos 0 <ℤ area points.now ring.now) }
{
    area_of(points, ring) > 0
}
