//! For each face the cells that have it.
ghost use Rattle.std.specs.Prelude.{◌≡◌, ◌++◌, ◌∷◌, [], ◌<◌, length, replicate, slice_set, IfOk};
ghost use Rattle.std.specs.List.{All};
ghost use Rattle.std.specs.List.Sorted.{IsStrictlyIncreasing};
ghost use Rattle.ff_basics.specs.NumberedLists.{list_at, lists_in};
ghost use Rattle.ff_cells.specs.FaceSets.{IsFaceList};
ghost use Rattle.ff_trans.specs.Rows.{IsPut, AreIndexed};

use ff_cells::Cell;
use ff_tables::NoMemory;
use std::alloc::Global;

/// Empty lists for so many faces.
pub fn empty_lists(alloc: Global, many: usize) -> Result<Vec<Vec<usize>>, NoMemory>
    ensures { IfOk result (λ lists. lists_in lists.items ≡ replicate many []) }
{
    let mut lists = Vec::with_capacity(alloc, many)?;
    for _k in 0..many {
        lists.push_reserved(Vec::new(alloc));
    }
    Ok(lists)
}

/// Puts the cell at the end of the list of the face.
pub fn put(lists: &mut [Vec<usize>], face: usize, cell: usize) -> Result<(), NoMemory>
    requires { face < length lists.old }
    ensures { IfOk result (λ _. lists_in lists.new ≡ slice_set (lists_in lists.old) face (list_at (lists_in lists.old) face ++ cell ∷ [])) }
{
    let list = &mut lists[face];
    list.push(cell)?;
    Ok(())
}

// Puts the cell at the end of the lists of its faces.
fn put_cell(lists: &mut [Vec<usize>], faces: &[u32], cell: usize) -> Result<(), NoMemory>
    requires rising { IsStrictlyIncreasing faces.now }
    requires below { All (λ f. f < length lists.old) faces.now }
    ensures { IfOk result (λ _. IsPut faces.now 0 (length faces.now) cell (lists_in lists.old) (lists_in lists.new)) }
{
    for j in 0..faces.len() {
        put(lists, faces[j] as usize, cell)?;
    }
    Ok(())
}

// Puts each cell.
fn put_cells(lists: &mut [Vec<usize>], cells: &[Cell]) -> Result<(), NoMemory>
    requires cells { All IsFaceList cells.now }
    requires below { All (λ c. All (λ f. f < length lists.old) c.faces) cells.now }
    requires empty { AreIndexed cells.now 0 (length lists.old) (lists_in lists.old) }
    ensures { IfOk result (λ _. AreIndexed cells.now (length cells.now) (length lists.old) (lists_in lists.new)) }
{
    for i in 0..cells.len() {
        put_cell(lists, cells[i].faces.as_slice(), i)?;
    }
    Ok(())
}

/// For each face below `width` the cells that have it, in order.
pub fn index(alloc: Global, cells: &[Cell], width: usize) -> Result<Vec<Vec<usize>>, NoMemory>
    requires cells { All IsFaceList cells.now }
    requires below { All (λ c. All (λ f. f < width) c.faces) cells.now }
    ensures { IfOk result (λ lists. AreIndexed cells.now (length cells.now) width (lists_in lists.items)) }
{
    let mut lists = empty_lists(alloc, width)?;
    put_cells(lists.as_mut_slice(), cells)?;
    Ok(lists)
}
