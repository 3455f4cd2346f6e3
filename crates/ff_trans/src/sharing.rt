//! For a face the cells that it shares with each face above it.
ghost use Rattle.std.specs.Prelude.{ℕ, ◌≡◌, [], ◌<◌, length, slice_set, IfOk};
ghost use Rattle.std.specs.List.{All};
ghost use Rattle.std.specs.List.Sorted.{IsStrictlyIncreasing};
ghost use Rattle.ff_basics.specs.NumberedLists.{list_at, lists_in};
ghost use Rattle.ff_cells.specs.FaceSets.{IsFaceList};
ghost use Rattle.ff_trans.specs.Rows.{AreCellsOf, IsPutAbove, AreShared};

use crate::index::put;
use ff_cells::Cell;
use ff_tables::NoMemory;

fn empty(lists: &mut [Vec<usize>], face: usize)
    requires { face < length lists.old }
    ensures { lists_in lists.new ≡ slice_set (lists_in lists.old) face [] }
{
    let list = &mut lists[face];
    list.clear();
}

fn empty_all(lists: &mut [Vec<usize>])
    ensures long { length lists.new ≡ length lists.old }
    ensures empty { (k : ℕ) → k < length lists.old → list_at (lists_in lists.new) k ≡ [] }
{
    for k in 0..lists.len() {
        empty(lists, k);
    }
}

// Puts the cell at the end of the lists of its faces above `f`, from the last one down.
fn put_above(lists: &mut [Vec<usize>], faces: &[u32], f: u32, cell: usize) -> Result<(), NoMemory>
    requires rising { IsStrictlyIncreasing faces.now }
    requires below { All (λ k. k < length lists.old) faces.now }
    ensures { IfOk result (λ _. IsPutAbove faces.now f cell (lists_in lists.old) (lists_in lists.new)) }
{
    for n in 0..faces.len() {
        let face = faces[faces.len() - 1 - n];
        if face <= f {
            return Ok(());
        }
        put(lists, face as usize, cell)?;
    }
    Ok(())
}

/// For each face above `f` the cells that have both, in order, where `list` has all cells of `f`. What the lists had is
/// dropped, and their memory is kept.
pub fn share(
    lists: &mut [Vec<usize>],
    cells: &[Cell],
    list: &[usize],
    f: u32,
) -> Result<(), NoMemory>
    requires faces { All IsFaceList cells.now }
    requires below { All (λ c. All (λ k. k < length lists.old) c.faces) cells.now }
    requires list { AreCellsOf cells.now (length cells.now) f list.now }
    ensures { IfOk result (λ _. AreShared cells.now f (length lists.old) (lists_in lists.new)) }
{
    empty_all(lists);
    for x in 0..list.len() {
        put_above(lists, cells[list[x]].faces.as_slice(), f, list[x])?;
    }
    Ok(())
}
