//! What the verdicts mean on a folded sheet.
ghost use Rattle.ff_borders.specs.Folded.{OfEachFolded};
ghost use Rattle.ff_orders.specs.Laws.{CrossingsAreThere, CyclesGoRound, VerifiedIsGeometry};

use ff_crossings::{
    listed_exactly, parts_are_listed, rows_by_test, rows_give_stackings, transitivity_rows,
    triples_suffice,
};

/// The verdict is that nothing is wrong exactly where the said pairs are a stacking in which no paper crosses and keep the creases.
pub fn verified_is_geometry()
    ensures { OfEachFolded VerifiedIsGeometry }
{
    rows_by_test();
    rows_give_stackings();
}

/// Where the verdict is a cycle, the three faces have a common place, and go round.
pub fn cycles_go_round()
    ensures { OfEachFolded CyclesGoRound }
{
    transitivity_rows();
}

/// Where the verdict is a crossing, the constraint of the cite holds, and at a plain border place the chords of what the cite names
/// alternate.
pub fn crossings_are_there()
    ensures { OfEachFolded CrossingsAreThere }
{
    rows_by_test();
    listed_exactly();
    triples_suffice();
    parts_are_listed();
}
