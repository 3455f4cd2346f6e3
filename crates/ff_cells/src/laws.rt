//! Laws of slab cells.
ghost use Rattle.ff_cells.specs.Laws.{CellsAreCounted, GivenOrRefused};

/// A folded pattern has one number of slab cells, and one of entries.
pub fn cells_are_counted()
    ensures { CellsAreCounted }
{}

/// Where the cells of a folded pattern are within the limits, nothing is refused.
pub fn given_or_refused()
    ensures { GivenOrRefused }
{}
