//! The cells found so far.
use crate::Cell;
use ff_whole::Place;
use std::collections::BTreeMap;

// Three places that aren't on one line: two on the lower bar of a gap, and one on its upper bar.
#[derive(Clone, Copy, Drop)]
pub struct Corners {
    pub first: Place,
    pub second: Place,
    pub third: Place,
}

// The first cell of each set of faces found, how many cells were found in all, and how many faces these list together.
// Each count ends at one past its limit. Once there are too many entries, cells are counted and no longer kept.
#[derive(Drop)]
pub struct Found {
    pub cells: Vec<Cell>,
    // For each set of faces the place of its cell.
    pub places: BTreeMap<Vec<u32>, usize>,
    // Places of cells, by numbers made from their faces: where to look first. Only time rests on it.
    pub recent: Vec<usize>,
    pub count: usize,
    pub entries: usize,
}
