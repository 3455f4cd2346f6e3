//! Lines that aren't vertical, at the x of a place.
ghost use Rattle.std.specs.Prelude.{◌≡◌, ◌≢◌, pos};
ghost use Rattle.ff_whole.specs.Sizes.{IsLine, IsMeetPlace};
ghost use Rattle.ff_whole.specs.Meeting.{IsCorner, rise, height_cmp};

use crate::divisors::reduced;
use crate::{Line, Place};
use std::cmp::Ordering;

// The height of the line at the x of the place, times the line's `b` and the place's `w`.
fn rise_at(line: Line, at: Place) -> i128
    requires line_size { IsLine line }
    requires at_size { IsMeetPlace at }
    ensures { result ≡ rise line at }
{
    line.c as i128 * at.w - line.a as i128 * at.x
}

/// How two lines that aren't vertical lie from below to above, at the x of a point or of a place of `meet`.
pub fn cmp_height(k: Line, l: Line, at: Place) -> Ordering
    requires k_size { IsLine k }
    requires l_size { IsLine l }
    requires at_size { IsMeetPlace at }
    requires k_not_vertical { k.b ≢ pos 0 }
    requires l_not_vertical { l.b ≢ pos 0 }
    ensures { result ≡ height_cmp k l at }
{
    let of_k = rise_at(k, at) * l.b as i128;
    let of_l = rise_at(l, at) * k.b as i128;
    if (k.b > 0) == (l.b > 0) {
        of_k.cmp(&of_l)
    } else {
        of_l.cmp(&of_k)
    }
}

/// The place of a line that isn't vertical, at the x of a point or of a place of `meet`, in lowest terms.
pub fn corner(line: Line, at: Place) -> Place
    requires line_size { IsLine line }
    requires at_size { IsMeetPlace at }
    requires not_vertical { line.b ≢ pos 0 }
    ensures { IsCorner line at result }
{
    let x = at.x * line.b as i128;
    let y = rise_at(line, at);
    let w = at.w * line.b as i128;
    if line.b > 0 {
        reduced(x, y, w)
    } else {
        reduced(-x, -y, -w)
    }
}
