//! Lists that are no longer than the limit.
ghost use Rattle.std.specs.Prelude.{◌≡◌, ◌++◌, ◌∷◌, [], ◌≤◌, length, IfErr, OnOk};
ghost use Rattle.ff_types.specs.declared.refusals.No.TheVariants.{Refused};
ghost use Rattle.ff_types.specs.declared.refusals.Refusal.TheVariants.{TooMany};
ghost use Rattle.ff_types.specs.declared.refusals.What.TheVariants.{Constraints};
ghost use Rattle.ff_types.specs.declared.limits.TheConstants.{MOST_CONSTRAINTS as most_constraints};
ghost use Rattle.ff_edges.specs.SharedSegments.{IsFull};

use ff_types::{MOST_CONSTRAINTS, No, Refusal, What};

fn too_many() -> No
    ensures { result ≡ Refused (TooMany Constraints most_constraints) }
{
    No::Refused(Refusal::TooMany {
        what: What::Constraints,
        limit: MOST_CONSTRAINTS as u64,
    })
}

/// Appends the item, where there is room.
pub fn append<T: Copy>(list: &mut Vec<T>, item: T) -> Result<(), No>
    ensures appended { OnOk result ((list.new.items ≡ list.old.items ++ item ∷ []) × (length list.new.items ≤ most_constraints)) }
    ensures refused { IfErr result (IsFull (length list.old.items)) }
{
    if list.len() >= MOST_CONSTRAINTS {
        return Err(too_many());
    }
    match list.push(item) {
        Ok(()) => Ok(()),
        Err(_) => Err(No::NoMemory),
    }
}
