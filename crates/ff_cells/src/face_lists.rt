//! Whether cells list faces as cells do.
ghost use Rattle.std.specs.Prelude.{◌↔◌, ◌<◌, length, IsTrue};
ghost use Rattle.std.specs.List.{All};
ghost use Rattle.ff_cells.specs.FaceSets.{IsFaceList, IsNextFace};

use crate::Cell;
use ff_types::MOST_FACES;

// Whether the number at the place is a face's, and above the one before.
fn is_next(faces: &[u32], n: usize) -> bool
    requires { n < length faces.now }
    ensures { IsTrue result ↔ IsNextFace faces.now n }
{
    let face = faces[n];
    if face as usize >= MOST_FACES {
        return false;
    }
    n == 0 || faces[n - 1] < face
}

fn is_face_list(cell: &Cell) -> bool
    ensures { IsTrue result ↔ IsFaceList cell.now }
{
    let faces = cell.faces.as_slice();
    for n in 0..faces.len() {
        if !is_next(faces, n) {
            return false;
        }
    }
    true
}

/// Whether the faces of each cell are numbers of faces in increasing order.
pub fn are_face_lists(cells: &[Cell]) -> bool
    ensures { IsTrue result ↔ All IsFaceList cells.now }
{
    for k in 0..cells.len() {
        if !is_face_list(&cells[k]) {
            return false;
        }
    }
    true
}
