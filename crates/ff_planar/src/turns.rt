//! How walks go on at vertices.
ghost use Rattle.std.specs.Prelude.{◌≡◌, ◌<◌, ◌≤◌, ◌+◌, ◌↔◌, IsTrue, length};
ghost use Rattle.ff_whole.specs.Points.{IsNear, minus};
ghost use Rattle.ff_whole.proofs.CyclicOrder.{IsTurned};
ghost use Rattle.ff_drawn.specs.Graphs.{IsGraph};
ghost use Rattle.ff_drawn.specs.Darts.{AreStarts};
ghost use Rattle.ff_drawn.specs.Drawn.{IsDrawnBy};
ghost use Rattle.ff_planar.specs.Turns.{IsNext, IsFirstOther};

use ff_drawn::{Dart, is_left};
use ff_types::EdgeEnds;
use ff_whole::Pt;

// Whether, going counterclockwise round `o` from `a`, one comes to `b` before `c`.
fn is_in_turn(o: Pt, a: Pt, b: Pt, c: Pt) -> bool
    requires o_near { IsNear o }
    requires a_near { IsNear a }
    requires b_near { IsNear b }
    requires c_near { IsNear c }
    ensures { IsTrue result ↔ IsTurned (minus a o) (minus b o) (minus c o) }
{
    if !is_left(o, b, c) {
        if !is_left(o, c, a) {
            return false;
        }
        return is_left(o, a, b);
    }
    if is_left(o, a, b) {
        return true;
    }
    is_left(o, c, a)
}

// The first of the darts from `start` on that doesn't come to `u`.
fn first_other(darts: &[Dart], u: u32, start: usize) -> usize
    requires { start + 1 < length darts.now }
    ensures { IsFirstOther darts.now u start result }
{
    if darts[start].head == u {
        start + 1
    } else {
        start
    }
}

/// The dart along which a walk goes on after the dart `d`: of those that leave the vertex to which it comes, the last
/// one counterclockwise from the edge back.
pub fn next_of(points: &[Pt], edges: &[EdgeEnds], darts: &[Dart], starts: &[u32], d: usize) -> usize
    requires graph { IsGraph points.now edges.now }
    requires drawn { IsDrawnBy points.now edges.now darts.now }
    requires starts { AreStarts darts.now (length points.now) starts.now }
    requires within { d < length darts.now }
    ensures { IsNext points.now edges.now darts.now d result }
{
    let Dart { tail: u, head: v } = darts[d];
    let start = starts[v as usize] as usize;
    let end = starts[v as usize + 1] as usize;
    let first = first_other(darts, u, start);
    let (o, a) = (points[v as usize], points[u as usize]);
    let mut last = first;
    for c in first + 1..end {
        let z = darts[c].head;
        if z == u {
            continue;
        }
        if is_in_turn(o, a, points[darts[last].head as usize], points[z as usize]) {
            last = c;
        }
    }
    last
}
