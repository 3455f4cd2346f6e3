//! Cells of a folded sheet.
use ff_tables::Items;
use ff_whole::Place;

/// A part of the folded sheet over which the same faces lie, between two neighbouring lines from left to right and two
/// neighbouring edges from below to above. `faces` are the faces over it in increasing order, at least one. `at` are
/// three of its corners, which aren't on one line; they are in the units of the folded points.
#[derive(Drop)]
pub struct Cell {
    pub faces: Items<u32>,
    pub at: [Place; 3],
}
