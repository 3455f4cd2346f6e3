//! Bars: edges' images that aren't vertical, and their order from below to above.
ghost use Rattle.std.specs.Prelude.{◌≡◌, ◌≢◌, ◌⊎◌, ℕ, ◌+◌, ◌<◌, pos, ◌<ℤ◌, ◌≤ℤ◌, length, OnOk, MatchOption, slice_index_or};
ghost use Rattle.std.specs.List.Sorted.{IsSortedBy, IsPermutation};
ghost use Rattle.std.proofs.Props.{props};
ghost use Rattle.ff_whole.specs.Places.{height, slant};
ghost use Rattle.ff_cells.specs.Before.{IsRising};
ghost use Rattle.ff_cells.specs.IsBar.{IsBar};
ghost use Rattle.ff_cells.specs.Gap.{gap, run};
ghost use Rattle.ff_cells.specs.Start.{slope_cmp, start_cmp, starts_lower, ClosesAt};

use crate::border::Border;
use crate::heights::cmp_at;
use crate::settling::settle;
use ff_whole::{Line, Pt, meet};
use std::alloc::AllocError;
use std::cmp::Ordering;

// An edge's image that isn't vertical, as one face has it, from its left end to its right one.
#[derive(Clone, Copy, Drop)]
pub struct Bar {
    pub lo: Pt,
    pub hi: Pt,
    pub line: Line,
    pub face: u32,
    // Whether the face is above the bar.
    pub lower: bool,
    pub ghost ok: { IsBar lo hi line } by { Prim.hlevel props },
}

// How steep the lines are.
fn cmp_slope(k: Line, l: Line) -> Ordering
    requires k_in { IsRising k }
    requires l_in { IsRising l }
    ensures { result ≡ slope_cmp k l }
{
    (-k.a * l.b).cmp(&(-l.a * k.b))
}

impl Bar {
    // How two bars lie from below to above just right of the border.
    pub fn by_start(&self, other: &Bar, at: &Border) -> Ordering
        ensures { result ≡ start_cmp at.now.place self.now.line other.now.line }
    {
        let by_height = cmp_at(self.line, other.line, at.place);
        by_height.then(cmp_slope(self.line, other.line))
    }
}

// From below to above just right of the border. The sort is quick where the bars stand in order already.
pub fn sort_bars(v: &mut Vec<Bar>, at: &Border) -> Result<(), AllocError>
    ensures same { IsPermutation v.old.items v.new.items }
    ensures sorted { OnOk result (IsSortedBy (λ a b. starts_lower at.now.place a.line b.line) v.new.items) }
{
    settle(v.as_mut_slice(), at);
    v.sort_by(|a: &Bar, b: &Bar| a.by_start(b, at))
}

// Where the bars meet, if `high` is below `low` at the border on the right and they aren't parallel.
pub fn crossing(low: &Bar, high: &Bar, right: &Border) -> Option<Border>
    ensures { MatchOption result ((pos 0 ≤ℤ gap low.now.line high.now.line right.now.place)
        ⊎ (slant low.now.line high.now.line ≡ pos 0))
        (λ m. (gap low.now.line high.now.line right.now.place <ℤ pos 0)
        × (slant low.now.line high.now.line ≢ pos 0) × (height low.now.line m.place ≡ pos 0)
        × (height high.now.line m.place ≡ pos 0)) }
{
    match cmp_at(low.line, high.line, right.place) {
        Ordering::Greater => match meet(low.line, high.line) {
            Some(place) => Some(Border { place }),
            None => None,
        },
        _ => None,
    }
}
