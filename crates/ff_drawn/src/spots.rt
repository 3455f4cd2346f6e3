//! Vertices from west to east, and whether two stand at one point.
ghost use Rattle.std.specs.Prelude.{◌≡◌, ◌<◌, ◌≤◌, false, length, IfOk};
ghost use Rattle.std.specs.List.{All};
ghost use Rattle.ff_whole.specs.Points.{IsNear};
ghost use Rattle.ff_types.specs.FaceRefusals.{SamePointAt, Never};
ghost use Rattle.ff_drawn.specs.Extents.{IsVertexExtent, AreVertexExtents, AreSpots};

use crate::extents::Extent;
use ff_tables::NoMemory;
use ff_whole::Pt;
use std::alloc::Global;

fn vertex_extent(points: &[Pt], v: usize) -> Extent
    requires near { All IsNear points.now }
    requires within { v < length points.now }
    requires few { length points.now ≤ 4096 }
    ensures vertex { IsVertexExtent points.now result }
    ensures number { result.number ≡ v }
{
    Extent {
        low: points[v],
        high: points[v],
        number: v as u32,
    }
}

// The extents of all vertices.
fn vertex_extents(alloc: Global, points: &[Pt]) -> Result<Vec<Extent>, NoMemory>
    requires near { All IsNear points.now }
    requires few { length points.now ≤ 4096 }
    ensures { IfOk result (λ list. AreVertexExtents points.now list.items) }
{
    let mut list = Vec::with_capacity(alloc, points.len())?;
    for v in 0..points.len() {
        list.push(vertex_extent(points, v))?;
    }
    Ok(list)
}

/// The extents of all vertices, from west to east.
pub fn spots_of(alloc: Global, points: &[Pt]) -> Result<Vec<Extent>, NoMemory>
    requires near { All IsNear points.now }
    requires few { length points.now ≤ 4096 }
    ensures { IfOk result (λ spots. AreSpots points.now spots.items) }
{
    let mut spots = vertex_extents(alloc, points)?;
    spots.sort()?;
    Ok(spots)
}

fn is_same(p: Pt, q: Pt) -> bool
    ensures { result ≡ false → p ≡ q → ⊥ }
{
    p == q
}

/// Whether two vertices stand at one point: where it is false, none do.
pub fn any_same(points: &[Pt], spots: &[Extent]) -> bool
    requires { AreSpots points.now spots.now }
    ensures { result ≡ false → Never (SamePointAt points.now) }
{
    let _ = points.len();
    for i in 1..spots.len() {
        if is_same(spots[i - 1].low, spots[i].low) {
            return true;
        }
    }
    false
}
