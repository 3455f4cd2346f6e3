//! Counting cells, and keeping the first of each set of faces.
ghost use Rattle.std.specs.Prelude.{◌≡◌, ◌+◌, ◌<◌, ◌^◌, ◌∷◌, ◌++◌, [], ℕ, OnOk, IfOk, is_some};
ghost use Rattle.ff_cells.specs.declared.cell.Cell.{Cell as CellRow};
ghost use Rattle.ff_cells.specs.Emits.{OpensAt, IsGapCell};
ghost use Rattle.ff_cells.specs.Merged.{has_set, AreNumbered};
ghost use Rattle.ff_cells.specs.Sheet.{IsCorners};
ghost use Rattle.ff_cells.specs.Tally.{capped, IsTally, Adds, IsCellOf};

use crate::Cell;
use crate::bars::Bar;
use crate::border::Border;
use crate::found::{Corners, Found};
use crate::recent::{SLOTS, looked_up, remember};
use ff_tables::{Items, NoMemory};
use ff_types::{MOST_CELLS, MOST_ENTRIES};
use ff_whole::corner;
use std::alloc::Global;
use std::collections::BTreeMap;

// Nothing is found yet.
pub fn nothing(alloc: Global) -> Result<Found, NoMemory>
    ensures { IfOk result (IsTally []) }
{
    let recent = vec![in alloc; 0; SLOTS]?;
    Ok(Found {
        cells: Vec::new(alloc),
        places: BTreeMap::new(alloc),
        recent,
        count: 0,
        entries: 0,
    })
}

// A capped number and another one, capped.
fn capped_sum(sum: usize, more: usize, most: usize) -> usize
    requires { most < 2 ^ 32 }
    ensures { (n : ℕ) → sum ≡ capped most n → result ≡ capped most (n + more) }
{
    if sum > most || more > most - sum {
        most + 1
    } else {
        sum + more
    }
}

fn copied(faces: &Vec<u32>) -> Result<Vec<u32>, NoMemory>
    ensures { IfOk result (λ v. v.items ≡ faces.now.items) }
{
    Ok(faces.clone()?)
}

// Three corners of a gap that is open at the border `top`.
fn corners(low: &Bar, high: &Bar, left: &Border, right: &Border, top: &Border) -> Corners
    requires { OpensAt left.now.place right.now.place low.now.line high.now.line top.now.place }
    ensures { IsCorners left.now.place right.now.place low.now.line high.now.line result.first result.second result.third }
{
    Corners {
        first: corner(low.line, left.place),
        second: corner(low.line, right.place),
        third: corner(high.line, top.place),
    }
}

// Keeps a cell of which the set is new.
fn keep(found: &mut Found, faces: &Vec<u32>, key: u32, at: Corners) -> Result<(), NoMemory>
    ensures count { found.new.count ≡ found.old.count }
    ensures entries { found.new.entries ≡ found.old.entries }
    ensures kept { OnOk result ((c : CellRow) → IsCellOf faces.now.items at c
        → found.new.cells.items ≡ found.old.cells.items ++ c ∷ []) }
    ensures numbered { OnOk result (AreNumbered found.old.cells.items found.old.places
        → AreNumbered found.new.cells.items found.new.places) }
{
    let place = found.cells.len();
    found.places.insert(copied(faces)?, place)?;
    let over = copied(faces)?;
    found.cells.push(Cell {
        faces: Items::of(over),
        at: [at.first, at.second, at.third],
    })?;
    remember(found.recent.as_mut_slice(), key, place);
    Ok(())
}

// Counts one more cell, and keeps it where there is room and its set is new. Only time rests on the key of the set.
pub fn add(
    found: &mut Found,
    faces: &Vec<u32>,
    key: u32,
    low: &Bar,
    high: &Bar,
    left: &Border,
    right: &Border,
    top: &Border,
) -> Result<(), NoMemory>
    requires { OpensAt left.now.place right.now.place low.now.line high.now.line top.now.place }
    ensures { OnOk result ((c : CellRow)
        × IsGapCell faces.now.items left.now.place right.now.place low.now.line high.now.line c
        × Adds found.old (c ∷ []) found.new) }
{
    found.count = capped_sum(found.count, 1, MOST_CELLS);
    found.entries = capped_sum(found.entries, faces.len(), MOST_ENTRIES);
    if found.entries > MOST_ENTRIES {
        return Ok(());
    }
    match looked_up(found, faces, key) {
        Some(_) => Ok(()),
        None => keep(found, faces, key, corners(low, high, left, right, top)),
    }
}
