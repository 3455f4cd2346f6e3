//! Greatest common divisors, and places in lowest terms.
ghost use Rattle.std.specs.Prelude.{◌≡◌, pos, ◌*ℤ◌, ◌<ℤ◌, IfSome};
ghost use Rattle.std.specs.Int.{IsGcd};
ghost use Rattle.ff_whole.specs.Meeting.{IsReduced};

use crate::Place;

/// The greatest common divisor; `gcd(0, 0)` is 0.
pub fn gcd(a: u128, b: u128) -> u128
    ensures { IsGcd a b result }
{
    let mut m = a;
    let mut n = b;
    while n != 0 {
        let rest = m % n;
        m = n;
        n = rest;
    }
    m
}

// The quotient, where it is whole.
fn whole(x: i128, n: i128) -> Option<i128>
    requires { pos 0 <ℤ n }
    ensures { IfSome result (λ q. x ≡ n *ℤ q) }
{
    if x % n == 0 { Some(x / n) } else { None }
}

/// The place `(x / w, y / w)` in lowest terms. Where it is whole, which is mostly so, no divisor is looked for.
pub fn reduced(x: i128, y: i128, w: i128) -> Place
    requires { pos 0 <ℤ w }
    ensures { IsReduced x y w result }
{
    if let Some(x) = whole(x, w)
        && let Some(y) = whole(y, w)
    {
        return Place { x, y, w: 1 };
    }
    let d = gcd(gcd(x.unsigned_abs(), y.unsigned_abs()), w.unsigned_abs()) as i128;
    Place {
        x: x / d,
        y: y / d,
        w: w / d,
    }
}
