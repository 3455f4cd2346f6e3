//! That no paper crosses is what the rows of the constraints say, on the sheet of every pattern with its faces and its
//! folding.
ghost use Rattle.ff_borders.specs.Folded.{OfEachFolded};
ghost use Rattle.ff_crossings.specs.Crossed.{CitesHaveRowsOrCross};
ghost use Rattle.ff_crossings.specs.CrossingLaws.{CitesGiveRows, RowsAreGeometry, RowsGiveStackings, WitnessedGiveRows};

/// In a stacking every constraint that holds has its row, or two chords of what its cite names alternate at a plain border
/// place. So where no paper crosses, every constraint that holds has a row, and so has every one that places witness.
pub fn cites_give_rows()
    ensures crossed { OfEachFolded CitesHaveRowsOrCross }
    ensures holding { OfEachFolded CitesGiveRows }
    ensures witnessed { OfEachFolded WitnessedGiveRows }
{}

/// Where every constraint that holds has a row, no paper crosses.
pub fn rows_give_stackings()
    ensures { OfEachFolded RowsGiveStackings }
{}

/// Both together: the geometric stackings are the orders in which every constraint that holds has a row.
pub fn rows_are_geometry()
    ensures { OfEachFolded RowsAreGeometry }
{}
