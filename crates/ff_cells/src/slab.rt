//! The cells of one slab.
ghost use Rattle.ff_cells.specs.Emits.{IsEmitted, OpensAt};
ghost use Rattle.ff_cells.specs.Tally.{Adds};
ghost use Rattle.ff_cells.specs.declared.bars.Bar.{Bar as BarRow};
ghost use Rattle.ff_cells.specs.declared.cell.Cell.{Cell as CellRow};
ghost use Rattle.std.specs.Prelude.{List, ◌++◌, ◌≤◌, ◌≡◌, ◌≢◌, ◌⊎◌, ◌↔◌, ℕ, ◌+◌, ◌<◌, pos, ◌<ℤ◌, ◌≤ℤ◌, length, OnOk, IfOk, MatchOption, slice_index_or};
ghost use Rattle.std.specs.List.{Contains};
ghost use Rattle.std.specs.List.Sorted.{IsStrictlyIncreasing};
ghost use Rattle.ff_cells.specs.Pass.{IsPassed};
ghost use Rattle.ff_cells.specs.Gap.{gap};
ghost use Rattle.ff_cells.specs.Sheet.{IsUnder};

use crate::adding::add;
use crate::bars::Bar;
use crate::border::Border;
use crate::found::Found;
use crate::heights::cmp_at;
use crate::recent::changed_key;
use ff_tables::NoMemory;
use std::alloc::Global;
use std::cmp::Ordering;

// The faces open past a bar: a lower bar opens its face, an upper one closes it. The key goes with the faces.
pub fn pass(faces: &mut Vec<u32>, key: &mut u32, bar: &Bar) -> Result<(), NoMemory>
    requires { IsStrictlyIncreasing faces.old.items }
    ensures rising { OnOk result (IsStrictlyIncreasing faces.new.items) }
    ensures members { OnOk result ((f : ℕ)
        → Contains faces.new.items f ↔ IsPassed bar.now.face bar.now.lower faces.old.items f) }
{
    *key = changed_key(*key, bar.face);
    match faces.binary_search(&bar.face) {
        Ok(at) => {
            if !bar.lower {
                faces.remove(at);
            }
        }
        Err(at) => {
            if bar.lower {
                faces.insert(at, bar.face)?;
            }
        }
    }
    Ok(())
}

// The border at which the gap between two neighbours is open, or None where they coincide in the slab.
pub fn opening(low: &Bar, high: &Bar, left: &Border, right: &Border) -> Option<Border>
    requires { IsUnder left.now.place right.now.place low.now.line high.now.line }
    ensures { MatchOption result ((gap low.now.line high.now.line left.now.place ≡ pos 0)
        × (gap low.now.line high.now.line right.now.place ≡ pos 0))
        (λ top. OpensAt left.now.place right.now.place low.now.line high.now.line top.place) }
{
    match cmp_at(low.line, high.line, left.place) {
        Ordering::Equal => match cmp_at(low.line, high.line, right.place) {
            Ordering::Equal => None,
            _ => Some(*right),
        },
        _ => Some(*left),
    }
}

// Finds the cells of the slab from below to above, where the bars stand in order at both borders.
pub fn slab(
    alloc: Global,
    v: &[Bar],
    left: &Border,
    right: &Border,
    found: &mut Found,
) -> Result<(), NoMemory>
    requires { (i j : ℕ) (d : BarRow) → i ≤ j → j < length v.now
        → IsUnder left.now.place right.now.place (slice_index_or v.now i d).line
        (slice_index_or v.now j d).line }
    ensures { OnOk result ((more : List CellRow) × Adds found.old more found.new
        × IsEmitted v.now left.now.place right.now.place (length v.now) more) }
{
    let mut faces = Vec::new(alloc);
    let mut key = 0;
    for i in 0..v.len() {
        if i > 0 && !faces.is_empty() {
            let (low, high) = (&v[i - 1], &v[i]);
            if let Some(top) = opening(low, high, left, right) {
                add(found, &faces, key, low, high, left, right, &top)?;
            }
        }
        pass(&mut faces, &mut key, &v[i])?;
    }
    Ok(())
}
