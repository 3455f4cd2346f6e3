//! One more triple, counted or listed.
ghost use Rattle.std.specs.Prelude.{◌≡◌, ◌<◌, ◌≤◌, ℕ, true, length, slice_get, Some, OnOk, IfErr};
ghost use Rattle.ff_types.specs.declared.cites.Listed.{Listed as ListedRow};
ghost use Rattle.ff_types.specs.declared.refusals.No.TheVariants.{Refused};
ghost use Rattle.ff_types.specs.declared.refusals.Refusal.TheVariants.{TooMany};
ghost use Rattle.ff_types.specs.declared.refusals.What.TheVariants.{Constraints};
ghost use Rattle.ff_types.specs.declared.limits.TheConstants.{MOST_CONSTRAINTS as most_constraints};
ghost use Rattle.ff_types.specs.Pairs.{AreSorted};
ghost use Rattle.ff_types.specs.Splitting.{IsFull};
ghost use Rattle.ff_trans.specs.Rows.{IsTaken, IsOfFaces};

use crate::found::Found;
use crate::listed::listed;
use ff_cells::Cell;
use ff_types::{MOST_CONSTRAINTS, No, Pairs, Refusal, What};

fn too_many() -> No
    ensures { result ≡ Refused (TooMany Constraints most_constraints) }
{
    No::Refused(Refusal::TooMany {
        what: What::Constraints,
        limit: MOST_CONSTRAINTS as u64,
    })
}

/// One more triple: the faces f < h < k, which overlap, with the corners of a cell that has them.
pub fn take(found: &mut Found, pairs: &Pairs, f: u32, h: u32, k: u32, cell: &Cell) -> Result<(), No>
    requires sorted { AreSorted pairs.now }
    requires low { f < h }
    requires high { h < k }
    requires first { (n : ℕ) × (slice_get pairs.now n ≡ Some (f, h)) }
    requires second { (n : ℕ) × (slice_get pairs.now n ≡ Some (f, k)) }
    requires third { (n : ℕ) × (slice_get pairs.now n ≡ Some (h, k)) }
    requires counted { found.old.keeps ≡ true → length found.old.list ≡ found.old.count }
    ensures taken { OnOk result ((x : ListedRow) × IsOfFaces pairs.now f h k cell.now.at x × IsTaken x found.old found.new) }
    ensures keeps { OnOk result (found.new.keeps ≡ found.old.keeps) }
    ensures room { OnOk result (found.new.count ≤ most_constraints) }
    ensures refused { IfErr result (IsFull found.old.count) }
{
    if found.count >= MOST_CONSTRAINTS {
        return Err(too_many());
    }
    if found.keeps {
        found
            .list
            .append(listed(pairs, found.guesses.as_slice(), f, h, k, cell))?;
    }
    found.count += 1;
    Ok(())
}
