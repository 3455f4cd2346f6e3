//! That a folded sheet has the layers that its case is made of.
ghost use Rattle.ff_borders.specs.Folded.{OfEachFolded};
ghost use Rattle.ff_answers.specs.Layers.{HasCells, HasPairs, HasCites, HasConstraints};

/// It can't be that a folded sheet has no list with one place in each slab cell.
pub fn some_cells()
    ensures { OfEachFolded HasCells }
{}

/// It can't be that a folded sheet has no list of all overlapping pairs.
pub fn some_pairs()
    ensures { OfEachFolded HasPairs }
{}

/// It can't be that a folded sheet has no list of all constraints that hold. Their terms are among the overlapping pairs.
pub fn some_constraints()
    ensures cites { OfEachFolded HasCites }
    ensures terms { OfEachFolded HasConstraints }
{}
