//! How often the outline of a sheet leaves a vertex.
ghost use Rattle.std.specs.Prelude.{◌≡◌, ◌<◌, ◌↔◌, IsTrue, length, Some};
ghost use Rattle.ff_types.specs.FaceRefusals.{PinchAt};
ghost use Rattle.ff_drawn.specs.Firsts.{IsFirst};
ghost use Rattle.ff_drawn.specs.Drawn.{IsDrawnBy};
ghost use Rattle.ff_planar.specs.Traces.{AreTraced, side_at};
ghost use Rattle.ff_planar.specs.declared.traces.Side.TheVariants.{Outside};

use crate::traces::Side;
use ff_drawn::Dart;
use ff_tables::Items;
use ff_types::EdgeEnds;
use ff_whole::Pt;

fn is_outside(sides: &[Side], d: usize) -> bool
    requires { d < length sides.now }
    ensures { IsTrue result ↔ (side_at sides.now d ≡ Outside) }
{
    match sides[d] {
        Side::Outside => true,
        _ => false,
    }
}

fn is_just(last: Option<u32>, v: u32) -> bool
    ensures { IsTrue result ↔ (last ≡ Some v) }
{
    match last {
        Some(w) => w == v,
        None => false,
    }
}

/// The first vertex that outer walks leave more than once.
pub fn first_pinch(
    points: &[Pt],
    edges: &[EdgeEnds],
    darts: &[Dart],
    rings: &[Items<u32>],
    sides: &[Side],
) -> Option<u32>
    requires drawn { IsDrawnBy points.now edges.now darts.now }
    requires traced { AreTraced points.now edges.now darts.now rings.now sides.now }
    ensures { IsFirst (PinchAt points.now edges.now) result }
{
    let mut last: Option<u32> = None;
    for d in 0..darts.len() {
        if !is_outside(sides, d) {
            continue;
        }
        let tail = darts[d].tail;
        if is_just(last, tail) {
            return Some(tail);
        }
        last = Some(tail);
    }
    None
}
