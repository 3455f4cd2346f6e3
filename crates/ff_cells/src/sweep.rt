//! From one border to the next.
ghost use Rattle.std.specs.Prelude.{◌≡◌, ◌≢◌, ◌⊎◌, ℕ, ◌+◌, ◌<◌, pos, ◌<ℤ◌, ◌≤ℤ◌, length, OnOk, MatchOption, slice_index_or};
ghost use Rattle.std.specs.Prelude.{List, ◌++◌, true, false, IfOk, IfErr, filter};
ghost use Rattle.ff_types.specs.declared.refusals.No.TheVariants.{Refused};
ghost use Rattle.ff_types.specs.declared.refusals.Refusal.TheVariants.{TooMany};
ghost use Rattle.ff_cells.specs.Tally.{Adds, StaysFew};
ghost use Rattle.ff_cells.specs.Stopped.{IsStopped, IsSweptBetween, AreSwept, AreStopped};
ghost use Rattle.ff_cells.specs.Strip.{spans_strip, at_x, x_at};
ghost use Rattle.ff_cells.specs.Reached.{AreFromLeft, AreActive};
ghost use Rattle.std.specs.Ordering.{int_cmp};
ghost use Rattle.std.specs.Prelude.{◌-◌};
ghost use Rattle.std.specs.List.{All};
ghost use Rattle.ff_whole.specs.Sizes.{IsBelow};
ghost use Rattle.ff_whole.specs.declared.sizes.TheConstants.{POINT_SIZE};
ghost use Rattle.ff_cells.specs.declared.cell.Cell.{Cell as CellRow};
ghost use Rattle.ff_cells.specs.Before.{x_before};
ghost use Rattle.ff_cells.specs.Swept.{IsSwept, IsSlabOf};
ghost use Rattle.std.specs.List.Sorted.{IsPermutation, IsSorted};
ghost use Rattle.ff_whole.specs.declared.places.Place.{Place as PlaceRow};
ghost use Rattle.ff_cells.specs.Gap.{run};
ghost use Rattle.ff_cells.specs.Next.{StartsUp, IsNext};

use crate::active::Active;
use crate::adding::nothing;
use crate::bars::{Bar, crossing, sort_bars};
use crate::border::Border;
use crate::found::Found;
use crate::reaching::enter;
use crate::slab::slab;
use ff_tables::NoMemory;
use ff_types::{MOST_CELLS, No, Refusal, What};
use ff_whole::Place;
use std::alloc::Global;
use std::cmp::Ordering;

// There are more than the limit.
pub fn too_many(what: What, limit: usize) -> No
    ensures { result ≡ Refused (TooMany what limit) }
{
    No::Refused(Refusal::TooMany {
        what,
        limit: limit as u64,
    })
}

// The next border of a slab that begins where the bars stand in order: where two of them meet first, or the limit.
pub fn next_border(v: &[Bar], limit: Border) -> Border
    ensures { (left : PlaceRow) → pos 0 <ℤ left.w → StartsUp left v.now → pos 0 <ℤ run left limit.place
        → IsNext left limit.place v.now (length v.now) result.place }
{
    let mut right = limit;
    for i in 1..v.len() {
        if let Some(m) = crossing(&v[i - 1], &v[i], &right) {
            right = m;
        }
    }
    right
}

// Adds the cells of the slab that begins at `left`, and answers where it ends.
fn next_slab(
    alloc: Global,
    bars: &mut Vec<Bar>,
    left: &Border,
    limit: Border,
    found: &mut Found,
) -> Result<Border, NoMemory>
    requires { x_before left.now.place limit.place ≡ true }
    ensures same { IsPermutation bars.old.items bars.new.items }
    ensures done { IfOk result (λ right. (more : List CellRow) × Adds found.old more found.new
        × IsSlabOf bars.old.items limit.place left.now.place right.place more) }
{
    sort_bars(bars, left)?;
    let right = next_border(bars, limit);
    slab(alloc, bars, left, &right, found)?;
    Ok(right)
}

// Adds the cells of the slabs between two neighbouring ends of bars, from left to right, where the bars span the strip.
// They are left in the order of the last slab.
pub fn strip(
    alloc: Global,
    bars: &mut Vec<Bar>,
    from: Border,
    limit: Border,
    found: &mut Found,
) -> Result<(), No>
    ensures same { IsPermutation bars.old.items bars.new.items }
    ensures done { OnOk result ((n : ℕ) × (last : PlaceRow) × (more : List CellRow)
        × Adds found.old more found.new × StaysFew found.old found.new × (x_before last limit.place ≡ false)
        × IsSwept bars.old.items from.place limit.place n last more) }
    ensures stopped { IfErr result (IsStopped bars.old.items from.place limit.place found.old) }
{
    let mut left = from;
    'borders: while left.by_x(&limit) == Ordering::Less {
        left = next_slab(alloc, bars, &left, limit, found)?;
        if found.count > MOST_CELLS {
            return Err(too_many(What::Cells, MOST_CELLS));
        }
    }
    Ok(())
}

// The border at a whole x.
fn border_at(x: i64) -> Border
    requires { IsBelow POINT_SIZE x }
    ensures { result.place ≡ at_x x }
{
    Border {
        place: Place {
            x: x as i128,
            y: 0,
            w: 1,
        },
    }
}

// Adds the cells of the slabs between two neighbours of all x.
fn between(
    alloc: Global,
    bars: &[Bar],
    a: i64,
    c: i64,
    active: &mut Active,
    found: &mut Found,
) -> Result<(), No>
    requires a_near { IsBelow POINT_SIZE a }
    requires c_near { IsBelow POINT_SIZE c }
    requires from_left { AreFromLeft bars.now }
    requires rising { a ≤ℤ c }
    requires reached { AreActive bars.now a a active.old }
    ensures done { OnOk result (IsSweptBetween bars.now a c found.old found.new) }
    ensures kept { OnOk result (AreActive bars.now c c active.new) }
    ensures stopped { IfErr result (IsStopped (filter (spans_strip a c) bars.now) (at_x a)
        (at_x c) found.old) }
{
    if a >= c {
        return Ok(());
    }
    enter(active, bars, a, c)?;
    strip(alloc, &mut active.bars, border_at(a), border_at(c), found)
}

// Adds the cells of the strip that ends at the x with the number `j`, where those of all strips before it are found.
fn strip_at(
    alloc: Global,
    bars: &[Bar],
    xs: &[i64],
    j: usize,
    active: &mut Active,
    found: &mut Found,
) -> Result<(), No>
    requires near { All (IsBelow POINT_SIZE) xs.now }
    requires from_left { AreFromLeft bars.now }
    requires rising { IsSorted int_cmp xs.now }
    requires first { 0 < j }
    requires within { j < length xs.now }
    requires reached { AreActive bars.now (x_at xs.now (j - 1)) (x_at xs.now (j - 1)) active.old }
    requires so_far { AreSwept bars.now xs.now (j - 1) found.old }
    ensures done { OnOk result (AreSwept bars.now xs.now j found.new) }
    ensures kept { OnOk result (AreActive bars.now (x_at xs.now j) (x_at xs.now j) active.new) }
    ensures stopped { IfErr result (AreStopped bars.now xs.now) }
{
    between(alloc, bars, xs[j - 1], xs[j], active, found)
}

// The cells of all slabs, from left to right and then upwards, where `xs` are the ends' x from left to right.
pub fn strips(alloc: Global, bars: &[Bar], xs: &[i64]) -> Result<Found, No>
    requires near { All (IsBelow POINT_SIZE) xs.now }
    requires from_left { AreFromLeft bars.now }
    requires rising { IsSorted int_cmp xs.now }
    ensures done { IfOk result (AreSwept bars.now xs.now (length xs.now - 1)) }
    ensures stopped { IfErr result (AreStopped bars.now xs.now) }
{
    let mut found = nothing(alloc)?;
    let mut active = Active {
        bars: Vec::new(alloc),
        reached: 0,
    };
    for j in 1..xs.len() {
        strip_at(alloc, bars, xs, j, &mut active, &mut found)?;
    }
    Ok(found)
}
