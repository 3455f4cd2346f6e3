//! Whether rings are convex, in linear time.
ghost use Rattle.std.specs.Prelude.{◌≡◌, ◌<◌, ℕ, false, length, IfOk};
ghost use Rattle.std.specs.List.{All};
ghost use Rattle.ff_whole.specs.Points.{IsNear};
ghost use Rattle.ff_whole.specs.Convex.{AreApart};
ghost use Rattle.ff_types.specs.Rings.{corner, corners};
ghost use Rattle.ff_planar.specs.Reflex.{AreThere, IsUnbent, AreUnbent, AreDifferent};

use ff_tables::{Items, NoMemory};
use ff_whole::{Pt, is_convex};
use std::alloc::Global;

// Marks the vertices of the ring by this number. Whether it comes to one that is marked so.
fn meets(marked: &mut [usize], ring: &[u32], number: usize) -> bool
    requires there { (k : ℕ) → k < length ring.now → corner ring.now k < length marked.old }
    ensures marked { length marked.new ≡ length marked.old }
    ensures differ { result ≡ false → AreDifferent ring.now (length ring.now) }
{
    for i in 0..ring.len() {
        let v = ring[i] as usize;
        if marked[v] == number {
            return true;
        }
        marked[v] = number;
    }
    false
}

// The points of the ring's vertices.
fn corners_of(alloc: Global, points: &[Pt], ring: &[u32]) -> Result<Vec<Pt>, NoMemory>
    requires { All (λ v. v < length points.now) ring.now }
    ensures { IfOk result (λ list. list.items ≡ corners points.now ring.now) }
{
    let mut list = Vec::new(alloc);
    for v in ring {
        list.push(points[*v as usize])?;
    }
    Ok(list)
}

// Whether the ring isn't convex. Its vertices are marked by its number, which is to be another one for each ring.
fn is_bent(
    alloc: Global,
    points: &[Pt],
    ring: &[u32],
    marked: &mut Vec<usize>,
    number: usize,
) -> Result<bool, NoMemory>
    requires near { All IsNear points.now }
    requires apart { AreApart points.now }
    requires there { (k : ℕ) → k < length ring.now → corner ring.now k < length points.now }
    requires marked { length marked.old.items ≡ length points.now }
    ensures marked { length marked.new.items ≡ length points.now }
    ensures bent { IfOk result (λ bent. bent ≡ false → IsUnbent points.now ring.now (length ring.now)) }
{
    if meets(marked.as_mut_slice(), ring, number) {
        return Ok(true);
    }
    let list = corners_of(alloc, points, ring)?;
    Ok(!is_convex(list.as_slice()))
}

/// Whether some ring isn't convex.
pub fn any_bent(alloc: Global, points: &[Pt], rings: &[Items<u32>]) -> Result<bool, NoMemory>
    requires near { All IsNear points.now }
    requires apart { AreApart points.now }
    requires there { AreThere points.now rings.now }
    ensures { IfOk result (λ bent. bent ≡ false → AreUnbent points.now rings.now (length rings.now)) }
{
    let mut marked = vec![in alloc; 0usize; points.len()]?;
    for f in 0..rings.len() {
        if is_bent(alloc, points, rings[f].as_slice(), &mut marked, f + 1)? {
            return Ok(true);
        }
    }
    Ok(false)
}
