//! Lines with a left and a right side.
ghost use Rattle.std.specs.Prelude.{◌≡◌, ◌≢◌};
ghost use Rattle.std.specs.Int.{int_signum};
ghost use Rattle.ff_whole.specs.Sizes.{IsLine, IsSmallPlace};
ghost use Rattle.ff_whole.specs.Points.{IsNear};
ghost use Rattle.ff_whole.specs.Places.{through as line_through, height};

use crate::{Place, Pt};

/// The line `a * x + b * y = c`. Its left side is where `a * x + b * y` is greater. `a` and `b` aren't both 0.
#[derive(Clone, Copy, Debug, PartialEq, Eq)]
pub struct Line {
    pub a: i64,
    pub b: i64,
    pub c: i64,
}

/// The line through two different points, with what is left of the way from `p` to `q` on its left side.
pub fn through(p: Pt, q: Pt) -> Line
    requires p_near { IsNear p }
    requires q_near { IsNear q }
    requires apart { p ≢ q }
    ensures value { result ≡ line_through p q }
    ensures size { IsLine result }
{
    let a = p.y - q.y;
    let b = q.x - p.x;
    Line {
        a,
        b,
        c: a * p.x + b * p.y,
    }
}

/// The side of the line on which the place lies: 1 on the left, 0 on the line, -1 on the right.
pub fn side_of(line: Line, place: Place) -> i8
    requires line_size { IsLine line }
    requires place_size { IsSmallPlace place }
    ensures { result ≡ int_signum (height line place) }
{
    let along = line.a as i128 * place.x + line.b as i128 * place.y;
    (along - line.c as i128 * place.w).signum() as i8
}
