//! Which faces stand together in a cell, in a square table of flags.
ghost use Rattle.std.specs.Prelude.{◌*◌, ◌≡◌, ◌<◌, ◌≤◌, ◌↔◌, length, IsTrue};
ghost use Rattle.std.specs.List.{All};
ghost use Rattle.std.specs.List.Sorted.{IsStrictlyIncreasing};
ghost use Rattle.ff_types.specs.declared.limits.TheConstants.{MOST_FACES as most_faces};
ghost use Rattle.ff_cells.specs.FaceSets.{IsFaceList};
ghost use Rattle.ff_pairs.specs.Tables.{Adds, StandsAt, IsBehind, IsAhead, IsAside, IsOrdered, IsInCells, IsWithin, IsReach, AreAllMarked};

use crate::reaching::raise;
use ff_cells::Cell;

// Marks the face at the place i with each face behind it.
fn mark_row(table: &mut [bool], width: usize, faces: &[u32], i: usize)
    requires few { width ≤ most_faces }
    requires size { length table.old ≡ width * width }
    requires faces { All (λ f. f < width) faces.now }
    requires within { i < length faces.now }
    ensures { Adds width table.old table.new (IsBehind faces.now i (length faces.now)) }
{
    let row = faces[i] as usize * width;
    for j in i + 1..faces.len() {
        table[row + faces[j] as usize] = true;
    }
}

// Marks each face before the place i with the face there.
fn mark_column(table: &mut [bool], width: usize, faces: &[u32], i: usize)
    requires few { width ≤ most_faces }
    requires size { length table.old ≡ width * width }
    requires faces { All (λ f. f < width) faces.now }
    requires within { i < length faces.now }
    ensures { Adds width table.old table.new (IsAhead faces.now i i) }
{
    let face = faces[i] as usize;
    for j in 0..i {
        table[faces[j] as usize * width + face] = true;
    }
}

// Marks the face at the place i with all others.
fn mark_face(table: &mut [bool], width: usize, faces: &[u32], i: usize)
    requires few { width ≤ most_faces }
    requires size { length table.old ≡ width * width }
    requires faces { All (λ f. f < width) faces.now }
    requires within { i < length faces.now }
    ensures { Adds width table.old table.new (IsAside faces.now i) }
{
    mark_column(table, width, faces, i);
    mark_row(table, width, faces, i);
}

// The first place from `at` on whose face is not less than the one given, where it may stand. Only time rests on it.
fn place_from(faces: &[u32], at: usize, face: u32) -> usize
    requires { at ≤ length faces.now }
    ensures { result ≤ length faces.now }
{
    for place in at..faces.len() {
        if faces[place] >= face {
            return place;
        }
    }
    faces.len()
}

fn stands_at(faces: &[u32], at: usize, face: u32) -> bool
    ensures { IsTrue result ↔ StandsAt faces.now at face }
{
    at < faces.len() && faces[at] == face
}

// Marks the pairs of the faces, where those of the faces before are marked: each face that isn't one of these with all
// others.
fn mark_cell(table: &mut [bool], reach: &mut [u32], width: usize, before: &[u32], faces: &[u32])
    requires few { width ≤ most_faces }
    requires size { length table.old ≡ width * width }
    requires faces { All (λ f. f < width) faces.now }
    requires rising { IsStrictlyIncreasing faces.now }
    requires before { IsStrictlyIncreasing before.now }
    requires marked { AreAllMarked width table.old (IsOrdered before.now (length before.now)) }
    requires reach { IsReach width table.old reach.old }
    ensures adds { Adds width table.old table.new (IsOrdered faces.now (length faces.now)) }
    ensures reach { IsReach width table.new reach.new }
{
    let mut at = 0;
    for i in 0..faces.len() {
        at = place_from(before, at, faces[i]);
        if !stands_at(before, at, faces[i]) {
            mark_face(table, width, faces, i);
            raise(reach, faces, i + 1, faces[faces.len() - 1] + 1);
        } else {
            at += 1;
        }
    }
}

// The faces of the cell before the place k, if any.
fn faces_before(cells: &[Cell], k: usize) -> &[u32]
    requires faces { All IsFaceList cells.now }
    requires within { k ≤ length cells.now }
    ensures rising { IsStrictlyIncreasing result.now }
    ensures pairs { IsWithin (IsOrdered result.now (length result.now)) (IsInCells cells.now k) }
{
    if k == 0 {
        &[]
    } else {
        cells[k - 1].faces.as_slice()
    }
}

/// Marks, for each cell, each of its faces with each face behind it.
pub fn mark_cells(table: &mut [bool], reach: &mut [u32], width: usize, cells: &[Cell])
    requires few { width ≤ most_faces }
    requires size { length table.old ≡ width * width }
    requires lists { All IsFaceList cells.now }
    requires faces { All (λ c. All (λ f. f < width) c.faces) cells.now }
    requires reach { IsReach width table.old reach.old }
    ensures adds { Adds width table.old table.new (IsInCells cells.now (length cells.now)) }
    ensures reach { IsReach width table.new reach.new }
{
    for k in 0..cells.len() {
        mark_cell(
            table,
            reach,
            width,
            faces_before(cells, k),
            cells[k].faces.as_slice(),
        );
    }
}
