//! A number above all faces of the cells.
ghost use Rattle.std.specs.Prelude.{◌<◌, ◌≤◌, max};
ghost use Rattle.std.specs.List.{All};
ghost use Rattle.ff_types.specs.declared.limits.TheConstants.{MOST_FACES as most_faces};
ghost use Rattle.ff_cells.specs.FaceSets.{IsFaceList};

use ff_cells::Cell;

// One more than the greatest of the faces, and no less than `least`.
fn past(least: usize, faces: &[u32]) -> usize
    requires least { least ≤ most_faces }
    requires few { All (λ f. f < most_faces) faces.now }
    ensures least { least ≤ result }
    ensures few { result ≤ most_faces }
    ensures faces { All (λ f. f < result) faces.now }
{
    let mut past = least;
    for i in 0..faces.len() {
        past = past.max(faces[i] as usize + 1);
    }
    past
}

/// One more than the greatest face.
pub fn width(cells: &[Cell]) -> usize
    requires { All IsFaceList cells.now }
    ensures few { result ≤ most_faces }
    ensures faces { All (λ c. All (λ f. f < result) c.faces) cells.now }
{
    let mut width = 0;
    for k in 0..cells.len() {
        width = past(width, cells[k].faces.as_slice());
    }
    width
}
