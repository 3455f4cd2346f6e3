//! The pairs of faces that stand together in a cell.
ghost use Rattle.std.specs.Prelude.{◌<◌, ◌≤◌, length, IfOk, IfErr};
ghost use Rattle.std.specs.List.{All};
ghost use Rattle.std.specs.List.Sorted.{IsStrictlyIncreasing};
ghost use Rattle.ff_types.specs.declared.limits.TheConstants.{MOST_FACES as most_faces};
ghost use Rattle.ff_cells.specs.FaceSets.{IsFaceList};
ghost use Rattle.ff_types.specs.declared.limits.TheConstants.{MOST_PAIRS as most_pairs};
ghost use Rattle.ff_pairs.specs.Together.{ArePairsOf, WhyNoPairs};

use crate::listing::list_rows;
use crate::marking::mark_cells;
use ff_cells::Cell;
use ff_tables::{Items, NoMemory};
use ff_types::{MOST_PAIRS, No, Pairs, Refusal, What};
use std::alloc::Global;

// One more than the last of the faces, or 0.
fn past_last(faces: &[u32]) -> usize
    requires rising { IsStrictlyIncreasing faces.now }
    requires few { All (λ f. f < most_faces) faces.now }
    ensures few { result ≤ most_faces }
    ensures faces { All (λ f. f < result) faces.now }
{
    if faces.is_empty() {
        0
    } else {
        faces[faces.len() - 1] as usize + 1
    }
}

// One more than the greatest face.
fn width(cells: &[Cell]) -> usize
    requires { All IsFaceList cells.now }
    ensures few { result ≤ most_faces }
    ensures faces { All (λ c. All (λ f. f < result) c.faces) cells.now }
{
    let mut width = 0;
    for k in 0..cells.len() {
        let past = past_last(cells[k].faces.as_slice());
        if width < past {
            width = past;
        }
    }
    width
}

fn list_pairs(alloc: Global, cells: &[Cell]) -> Result<Vec<(u32, u32)>, NoMemory>
    requires { All IsFaceList cells.now }
    ensures { IfOk result (λ list. ArePairsOf cells.now list.items) }
{
    let width = width(cells);
    let mut table = vec![in alloc; false; width * width]?;
    let mut reach = vec![in alloc; 0; width]?;
    mark_cells(table.as_mut_slice(), reach.as_mut_slice(), width, cells);
    list_rows(alloc, table.as_slice(), reach.as_slice(), width)
}

/// The pairs of faces that stand together in one of the cells: where these are the cells of a folded pattern, the pairs
/// that overlap. Refused exactly where there are more than `MOST_PAIRS`.
pub fn pairs(alloc: Global, cells: &Items<Cell>) -> Result<Pairs, No>
    requires { All IsFaceList cells.now }
    ensures made { IfOk result (λ pairs. ArePairsOf cells.now pairs) }
    ensures few { IfOk result (λ pairs. length pairs ≤ most_pairs) }
    ensures refused { IfErr result (WhyNoPairs cells.now) }
{
    let list = list_pairs(alloc, cells.as_slice())?;
    if list.len() > MOST_PAIRS {
        return Err(No::Refused(Refusal::TooMany {
            what: What::Pairs,
            limit: MOST_PAIRS as u64,
        }));
    }
    Ok(Pairs::of(Items::of(list)))
}
