//! Points of the plane.
ghost use Rattle.std.specs.Prelude.{◌≡◌, ◌<◌, ◌↔◌, IsTrue, pos, negsuc, ◌<ℤ◌};
ghost use Rattle.std.specs.Int.{int_signum};
ghost use Rattle.ff_whole.specs.Points.{IsNear, turn};

use crate::POINT_SIZE;

/// A point with whole coordinates, in the units of the drawing times the scale.
#[derive(Clone, Copy, Debug, PartialEq, Eq, PartialOrd, Ord)]
pub struct Pt {
    pub x: i64,
    pub y: i64,
}

impl Pt {
    /// Whether both coordinates are within the limit of this project.
    pub fn is_near(self) -> bool
        ensures { IsTrue result ↔ IsNear self }
    {
        self.x.unsigned_abs() < POINT_SIZE && self.y.unsigned_abs() < POINT_SIZE
    }
}

/// Twice the signed area of the triangle `p`, `q`, `r`.
fn turn_of(p: Pt, q: Pt, r: Pt) -> i64
    requires p_near { IsNear p }
    requires q_near { IsNear q }
    requires r_near { IsNear r }
    ensures { result ≡ turn p q r }
{
    (q.x - p.x) * (r.y - p.y) - (q.y - p.y) * (r.x - p.x)
}

/// The side of the line from `p` to `q` on which `r` lies: 1 on the left, 0 on the line, -1 on the right.
pub fn orient(p: Pt, q: Pt, r: Pt) -> i8
    requires p_near { IsNear p }
    requires q_near { IsNear q }
    requires r_near { IsNear r }
    ensures { result ≡ int_signum (turn p q r) }
{
    turn_of(p, q, r).signum() as i8
}
