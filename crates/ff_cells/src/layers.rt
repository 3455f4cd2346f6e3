//! The cells of a folded sheet.
ghost use Rattle.std.specs.Prelude.{◌≡◌, ◌≤◌, length, map, IfOk, IfErr};
ghost use Rattle.std.specs.List.{All};
ghost use Rattle.ff_types.specs.declared.patterns.Pattern.{Pattern as PatternRow};
ghost use Rattle.ff_types.specs.FoldedPatterns.{IsFoldedPattern};
ghost use Rattle.ff_types.specs.Sheets.{sheet_of};
ghost use Rattle.ff_types.specs.declared.limits.TheConstants.{MOST_CELLS as most_cells};
ghost use Rattle.ff_types.specs.declared.limits.TheConstants.{MOST_ENTRIES as most_entries};
ghost use Rattle.ff_cells.specs.FaceSets.{HaveFaceSets, IsFaceList};
ghost use Rattle.ff_cells.specs.SlabCells.{AreCells, HasFewCells, WhyNoCells};
ghost use Rattle.ff_cells.specs.Reached.{AreFromLeft};
ghost use Rattle.ff_cells.specs.Steps.{AreBars};
ghost use Rattle.ff_cells.specs.Tally.{entries_of};
ghost use Rattle.ff_cells.specs.Xs.{AreXs, AreFound};

use crate::Cell;
use crate::bars::Bar;
use crate::found::Found;
use crate::reaching::sort_from_left;
use crate::steps::bars_of;
use crate::sweep::{strips, too_many};
use ff_tables::{Items, NoMemory};
use ff_types::{Faces, Folded, MOST_ENTRIES, No, What};
use ff_whole::Pt;
use std::alloc::Global;

fn xs_of(alloc: Global, points: &[Pt]) -> Result<Vec<i64>, NoMemory>
    ensures { IfOk result (λ xs. xs.items ≡ map (λ p. p.x) points.now) }
{
    Ok(points.iter().map(|p| p.x).collect(alloc)?)
}

// The x of all points, from left to right.
fn all_xs(alloc: Global, points: &[Pt]) -> Result<Vec<i64>, NoMemory>
    ensures { IfOk result (λ xs. AreXs points.now xs.items) }
{
    let mut xs = xs_of(alloc, points)?;
    xs.sort()?;
    Ok(xs)
}

// The bars of all faces, from left to right.
fn bars_from_left(alloc: Global, faces: &Faces, folded: &Folded) -> Result<Vec<Bar>, NoMemory>
    requires { (pattern : PatternRow) × IsFoldedPattern pattern faces.now folded.now }
    ensures are { IfOk result (λ bars. AreBars folded.now.points faces.now.rings folded.now.up bars.items) }
    ensures from_left { IfOk result (λ bars. AreFromLeft bars.items) }
{
    let mut bars = bars_of(alloc, faces, folded)?;
    sort_from_left(&mut bars)?;
    Ok(bars)
}

// The cells of all slabs.
fn swept(alloc: Global, faces: &Faces, folded: &Folded) -> Result<Found, No>
    requires { (pattern : PatternRow) × IsFoldedPattern pattern faces.now folded.now }
    ensures done { IfOk result (AreFound folded.now.points faces.now.rings folded.now.up) }
    ensures refused { IfErr result (λ no. (pattern : PatternRow)
        → IsFoldedPattern pattern faces.now folded.now
        → WhyNoCells (sheet_of pattern faces.now folded.now) no) }
{
    let bars = bars_from_left(alloc, faces, folded)?;
    let xs = all_xs(alloc, folded.points.as_slice())?;
    strips(alloc, bars.as_slice(), xs.as_slice())
}

/// The slab cells of a folded pattern lie from left to right, then upwards: between neighbouring x of folded vertices and
/// of crossings of folded edges, the parts between neighbouring images of edges that lie in at least one face. The result
/// has for each different set of faces the first of them that has these faces over it, in the order of the slab cells,
/// with the faces and three of its corners. Refused exactly where there are more than `MOST_CELLS` slab cells, or else
/// more than `MOST_ENTRIES` faces over all of them together.
pub fn cells(alloc: Global, faces: &Faces, folded: &Folded) -> Result<Items<Cell>, No>
    requires { (pattern : PatternRow) × IsFoldedPattern pattern faces.now folded.now }
    ensures made { IfOk result (λ list. (pattern : PatternRow)
        → IsFoldedPattern pattern faces.now folded.now
        → AreCells (sheet_of pattern faces.now folded.now) list) }
    ensures face_sets { IfOk result (λ list. (pattern : PatternRow)
        → IsFoldedPattern pattern faces.now folded.now
        → HaveFaceSets (sheet_of pattern faces.now folded.now) list) }
    ensures face_lists { IfOk result (All IsFaceList) }
    ensures counted { IfOk result (λ _. (pattern : PatternRow)
        → IsFoldedPattern pattern faces.now folded.now
        → HasFewCells (sheet_of pattern faces.now folded.now)) }
    ensures few { IfOk result (λ list. length list ≤ most_cells) }
    ensures few_entries { IfOk result (λ list. entries_of list ≤ most_entries) }
    ensures refused { IfErr result (λ no. (pattern : PatternRow)
        → IsFoldedPattern pattern faces.now folded.now
        → WhyNoCells (sheet_of pattern faces.now folded.now) no) }
{
    let found = swept(alloc, faces, folded)?;
    if found.entries > MOST_ENTRIES {
        return Err(too_many(What::Entries, MOST_ENTRIES));
    }
    Ok(Items::of(found.cells))
}
