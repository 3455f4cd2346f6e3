//! The faces above a given one that cells have, each with the first cell that has it.
ghost use Rattle.std.specs.Prelude.{◌≡◌, ◌∷◌, [], ◌<◌, ◌≤◌, length};
ghost use Rattle.std.specs.List.{All};
ghost use Rattle.std.specs.List.Sorted.{IsStrictlyIncreasing};
ghost use Rattle.ff_cells.specs.FaceSets.{IsFaceList};
ghost use Rattle.ff_trans.specs.Rows.{IsMarked, IsMarkedAbove, AreNumbered, IsRowTo, IsClear, IsReach, AreSameFrom};

use ff_cells::Cell;

fn mark_face(row: &mut [Option<usize>], face: usize, cell: usize)
    requires { face < length row.old }
    ensures { IsMarked (face ∷ []) 0 1 cell row.old row.new }
{
    if row[face].is_none() {
        row[face] = Some(cell);
    }
}

// Marks with the cell its faces above `h` that have no cell yet, from the last one down.
fn mark_above(row: &mut [Option<usize>], faces: &[u32], h: u32, cell: usize)
    requires rising { IsStrictlyIncreasing faces.now }
    requires below { All (λ f. f < length row.old) faces.now }
    ensures { IsMarkedAbove faces.now h cell row.old row.new }
{
    for n in 0..faces.len() {
        let face = faces[faces.len() - 1 - n];
        if face <= h {
            return;
        }
        mark_face(row, face as usize, cell);
    }
}

// Does so, and answers a number above all faces of the cell.
fn mark_cell(row: &mut [Option<usize>], faces: &[u32], h: u32, cell: usize) -> usize
    requires rising { IsStrictlyIncreasing faces.now }
    requires below { All (λ f. f < length row.old) faces.now }
    ensures marked { IsMarkedAbove faces.now h cell row.old row.new }
    ensures within { result ≤ length row.old }
    ensures past { AreSameFrom result row.old row.new }
{
    mark_above(row, faces, h, cell);
    if faces.is_empty() {
        0
    } else {
        faces[faces.len() - 1] as usize + 1
    }
}

/// Marks each face above `h` that the cells of the list have, with the first such cell. Answers a number above all faces
/// marked.
pub fn mark_row(row: &mut [Option<usize>], cells: &[Cell], list: &[usize], h: u32) -> usize
    requires numbered { AreNumbered cells.now list.now }
    requires lists { All IsFaceList cells.now }
    requires below { All (λ c. All (λ k. k < length row.old) c.faces) cells.now }
    requires clear { IsClear row.old }
    ensures row { IsRowTo cells.now list.now (length list.now) h (length row.old) row.new }
    ensures reach { IsReach row.new result }
{
    let mut reach = 0;
    for x in 0..list.len() {
        let past = mark_cell(row, cells[list[x]].faces.as_slice(), h, list[x]);
        reach = reach.max(past);
    }
    reach
}
