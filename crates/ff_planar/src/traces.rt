//! All walks of a drawing.
ghost use Rattle.std.specs.Prelude.{◌≡◌, ◌≢◌, ◌<◌, ◌≤◌, ◌^◌, ◌↔◌, ℕ, IsTrue, length, IfOk, OnOk};
ghost use Rattle.std.specs.List.{All};
ghost use Rattle.ff_drawn.specs.Graphs.{IsGraph};
ghost use Rattle.ff_drawn.specs.Darts.{AreStarts};
ghost use Rattle.ff_drawn.specs.Drawn.{IsDrawnBy};
ghost use Rattle.ff_planar.specs.Orbits.{AreNexts};
ghost use Rattle.ff_planar.specs.Traces.{side_at as side_of, AreTraced, AddsWalk, Fills};
ghost use Rattle.ff_planar.specs.declared.traces.Side.TheVariants.{Unmet};

use crate::walks::{goes_round, nexts_of, orbit_of, tails_of};
use ff_drawn::Dart;
use ff_tables::{Items, NoMemory};
use ff_types::EdgeEnds;
use ff_whole::Pt;
use std::alloc::Global;

/// What lies left of a dart: a face, by its number, or the outside.
#[derive(Clone, Copy, Debug, PartialEq, Eq)]
pub enum Side {
    Unmet,
    Outside,
    Face(u32),
}

fn is_met(sides: &[Side], d: usize) -> bool
    requires { d < length sides.now }
    ensures { IsTrue result ↔ (side_of sides.now d ≢ Unmet) }
{
    match sides[d] {
        Side::Unmet => false,
        _ => true,
    }
}

// Gives the darts with these numbers a side.
fn fill(sides: &mut [Side], orbit: &[u32], side: Side)
    requires { All (λ d. d < length sides.old) orbit.now }
    ensures { Fills sides.old orbit.now side sides.new }
{
    for d in orbit {
        sides[*d as usize] = side;
    }
}

// Adds the walk with these darts and vertices.
fn add_walk(
    rings: &mut Vec<Items<u32>>,
    sides: &mut [Side],
    orbit: &[u32],
    ring: Vec<u32>,
    is_ring: bool,
) -> Result<(), NoMemory>
    requires few { length rings.old.items < 2 ^ 32 }
    requires darts { All (λ d. d < length sides.old) orbit.now }
    ensures { OnOk result (AddsWalk is_ring rings.old.items sides.old orbit.now ring.items rings.new.items sides.new) }
{
    if !is_ring {
        fill(sides, orbit, Side::Outside);
        return Ok(());
    }
    fill(sides, orbit, Side::Face(rings.len() as u32));
    rings.push(Items::of(ring))?;
    Ok(())
}

// All walks: each is met at its first dart, so rings come in order.
fn trace_into(
    alloc: Global,
    points: &[Pt],
    edges: &[EdgeEnds],
    darts: &[Dart],
    nexts: &[u32],
    sides: &mut [Side],
) -> Result<Vec<Items<u32>>, NoMemory>
    requires graph { IsGraph points.now edges.now }
    requires drawn { IsDrawnBy points.now edges.now darts.now }
    requires few { length darts.now ≤ 2 ^ 15 }
    requires table { AreNexts points.now edges.now darts.now nexts.now }
    requires as_many { length sides.old ≡ length darts.now }
    requires unmet { (d : ℕ) → side_of sides.old d ≡ Unmet }
    ensures { IfOk result (λ rings. AreTraced points.now edges.now darts.now rings.items sides.new) }
{
    let mut rings: Vec<Items<u32>> = Vec::new(alloc);
    for d in 0..darts.len() {
        if is_met(sides, d) {
            continue;
        }
        let orbit = orbit_of(alloc, nexts, d as u32)?;
        let ring = tails_of(alloc, darts, &orbit)?;
        let is_ring = goes_round(points, &ring);
        add_walk(&mut rings, sides, &orbit, ring, is_ring)?;
    }
    Ok(rings)
}

/// The rings of a drawing, each from its least vertex, in order of lists, and the side of each dart.
#[derive(Drop)]
pub struct Traced {
    pub rings: Vec<Items<u32>>,
    pub sides: Vec<Side>,
}

/// All walks of a drawing.
pub fn trace_of(
    alloc: Global,
    points: &[Pt],
    edges: &[EdgeEnds],
    darts: &[Dart],
    starts: &[u32],
) -> Result<Traced, NoMemory>
    requires graph { IsGraph points.now edges.now }
    requires drawn { IsDrawnBy points.now edges.now darts.now }
    requires starts { AreStarts darts.now (length points.now) starts.now }
    requires few { length darts.now ≤ 2 ^ 15 }
    ensures { IfOk result (λ traced. AreTraced points.now edges.now darts.now traced.rings.items traced.sides.items) }
{
    let nexts = nexts_of(alloc, points, edges, darts, starts)?;
    let mut sides = vec![in alloc; Side::Unmet; darts.len()]?;
    let rings = trace_into(alloc, points, edges, darts, &nexts, &mut sides)?;
    Ok(Traced { rings, sides })
}
