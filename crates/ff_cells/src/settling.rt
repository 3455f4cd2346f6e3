//! Bringing bars nearly in order.
ghost use Rattle.std.specs.Prelude.{◌<◌, length};
ghost use Rattle.std.specs.List.Sorted.{IsPermutation};

use crate::bars::Bar;
use crate::border::Border;
use std::cmp::Ordering;

// How many bars one is moved past at most.
const MOST_STEPS: usize = 8;

// Moves the bar at the place `i` down past those before it that are above it just right of the border, a few at most.
fn settle_one(v: &mut [Bar], i: usize, at: &Border)
    requires { i < length v.old }
    ensures { IsPermutation v.old v.new }
{
    for n in 0..i.min(MOST_STEPS) {
        let j = i - n;
        if v[j].by_start(&v[j - 1], at) != Ordering::Less {
            return;
        }
        v.swap(j - 1, j);
    }
}

// Moves each bar down so. Where few neighbours have changed places at the border, all stand in order then.
pub fn settle(v: &mut [Bar], at: &Border)
    ensures { IsPermutation v.old v.new }
{
    for i in 1..v.len() {
        settle_one(v, i, at);
    }
}
