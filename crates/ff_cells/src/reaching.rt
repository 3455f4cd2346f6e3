//! From the bars of one strip to those of the next.
ghost use Rattle.std.specs.Prelude.{◌≡◌, ◌≤◌, ◌<◌, ◌≤ℤ◌, ◌++◌, ◌∷◌, [], length, filter, OnOk};
ghost use Rattle.std.specs.List.Sorted.{IsPermutation};
ghost use Rattle.ff_cells.specs.Reached.{AreFromLeft, AreActive, IsReached, lasts};
ghost use Rattle.ff_cells.specs.Strip.{spans_strip};

use crate::active::Active;
use crate::bars::Bar;
use ff_tables::NoMemory;
use std::alloc::AllocError;

// From left to right by their left ends.
pub fn sort_from_left(v: &mut Vec<Bar>) -> Result<(), AllocError>
    ensures same { IsPermutation v.old.items v.new.items }
    ensures sorted { OnOk result (AreFromLeft v.new.items) }
{
    v.sort_by(|a: &Bar, b: &Bar| a.lo.x.cmp(&b.lo.x))
}

// Lets go the bars that end before `c`.
fn keep_lasting(v: &mut Vec<Bar>, c: i64)
    ensures { v.new.items ≡ filter (lasts c) v.old.items }
{
    v.retain(|b: &Bar| c <= b.hi.x)
}

// Appends the bar if it goes on up to `c`.
fn push_lasting(v: &mut Vec<Bar>, bar: Bar, c: i64) -> Result<(), NoMemory>
    ensures { OnOk result (v.new.items ≡ v.old.items ++ filter (lasts c) (bar ∷ [])) }
{
    if c <= bar.hi.x {
        v.push(bar)?;
    }
    Ok(())
}

// Goes on over the bars that begin at `a` or before, and takes those that go on up to `c`.
fn reach(active: &mut Active, bars: &[Bar], a: i64, c: i64) -> Result<(), NoMemory>
    requires { AreActive bars.now a c active.old }
    ensures { OnOk result (AreActive bars.now a c active.new × IsReached bars.now a active.new.reached) }
{
    'bars: while active.reached < bars.len() {
        let bar = bars[active.reached];
        if a < bar.lo.x {
            return Ok(());
        }
        push_lasting(&mut active.bars, bar, c)?;
        active.reached += 1;
    }
    Ok(())
}

// Goes on to the bars that span the strip from `a` to `c`.
pub fn enter(active: &mut Active, bars: &[Bar], a: i64, c: i64) -> Result<(), NoMemory>
    requires from_left { AreFromLeft bars.now }
    requires rising { a ≤ℤ c }
    requires so_far { AreActive bars.now a a active.old }
    ensures kept { OnOk result (AreActive bars.now c c active.new) }
    ensures spanning { OnOk result (IsPermutation (filter (spans_strip a c) bars.now) active.new.bars.items) }
{
    keep_lasting(&mut active.bars, c);
    reach(active, bars, a, c)
}
