//! How bars lie from below to above.
ghost use Rattle.std.specs.Prelude.{◌≡◌, pos, ◌<ℤ◌, true, IfSome};
ghost use Rattle.ff_whole.specs.Sizes.{IsLine, IsMeetPlace, IsBelow};
ghost use Rattle.ff_whole.specs.Meeting.{height_cmp, rise};
ghost use Rattle.ff_whole.specs.declared.sizes.TheConstants.{POINT_SIZE as point_size};
ghost use Rattle.ff_cells.specs.Strip.{at_x};

use ff_whole::{Line, POINT_SIZE, Place, cmp_height};
use std::cmp::Ordering;

fn is_one_line(k: Line, l: Line) -> bool
    ensures { result ≡ true → k ≡ l }
{
    k == l
}

// The x of the place, where it is whole and near.
fn whole_x(at: Place) -> Option<i64>
    ensures { IfSome result (λ x. IsBelow point_size x × (at.x ≡ x) × (at.w ≡ pos 1)) }
{
    if at.w == 1 && at.x.unsigned_abs() < POINT_SIZE as u128 {
        Some(at.x as i64)
    } else {
        None
    }
}

// The height of the line at a whole x, times the line's `b`.
fn whole_rise(line: Line, x: i64) -> i64
    requires line_size { IsLine line }
    requires x_size { IsBelow point_size x }
    ensures { result ≡ rise line (at_x x) }
{
    line.c - line.a * x
}

// What `cmp_at` gives at a whole x.
fn cmp_whole(k: Line, l: Line, x: i64) -> Ordering
    requires k_size { IsLine k }
    requires l_size { IsLine l }
    requires x_size { IsBelow point_size x }
    requires k_rises { pos 0 <ℤ k.b }
    requires l_rises { pos 0 <ℤ l.b }
    ensures { result ≡ height_cmp k l (at_x x) }
{
    let of_k = whole_rise(k, x) as i128 * l.b as i128;
    let of_l = whole_rise(l, x) as i128 * k.b as i128;
    of_k.cmp(&of_l)
}

/// How two lines lie from below to above, at the x of a point or of a place of `meet`, where the `b` of both is above 0.
/// Quick where both are one line, as those of the two bars of an edge between two faces are, and at a whole x.
pub fn cmp_at(k: Line, l: Line, at: Place) -> Ordering
    requires k_size { IsLine k }
    requires l_size { IsLine l }
    requires at_size { IsMeetPlace at }
    requires k_rises { pos 0 <ℤ k.b }
    requires l_rises { pos 0 <ℤ l.b }
    ensures { result ≡ height_cmp k l at }
{
    if is_one_line(k, l) {
        return Ordering::Equal;
    }
    if let Some(x) = whole_x(at) {
        return cmp_whole(k, l, x);
    }
    cmp_height(k, l, at)
}
