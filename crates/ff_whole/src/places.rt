//! Places with rational coordinates.
ghost use Rattle.std.specs.Prelude.{◌≡◌, ◌*ℤ◌};
ghost use Rattle.std.specs.Ordering.{int_cmp};
ghost use Rattle.ff_whole.specs.Sizes.{IsMeetPlace};

use std::cmp::Ordering;

/// The place `(x / w, y / w)`, where `w` is at least 1.
///
/// Two places may be one point: `(1, 2, 1)` and `(2, 4, 2)` are. Those of `meet` and `corner` are in lowest terms.
#[derive(Clone, Copy, Debug, PartialEq, Eq)]
pub struct Place {
    pub x: i128,
    pub y: i128,
    pub w: i128,
}

/// How two places lie from left to right. Each is a point (with 1 for `w`) or a place of `meet`.
pub fn cmp_x(p: Place, q: Place) -> Ordering
    requires p_size { IsMeetPlace p }
    requires q_size { IsMeetPlace q }
    ensures { result ≡ int_cmp (p.x *ℤ q.w) (q.x *ℤ p.w) }
{
    (p.x * q.w).cmp(&(q.x * p.w))
}
