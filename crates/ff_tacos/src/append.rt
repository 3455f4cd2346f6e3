//! Appending what there is.
ghost use Rattle.std.specs.Prelude.{◌≡◌, ◌++◌, ◌+◌, ◌≤◌, [], length, OnOk, IfErr, IfOk};
ghost use Rattle.std.specs.List.{cons_option};
ghost use Rattle.ff_types.specs.declared.limits.TheConstants.{MOST_CONSTRAINTS as most_constraints};
ghost use Rattle.ff_tacos.specs.Making.{WhyNoConstraints};

use ff_tables::NoMemory;
use ff_types::{Listed, Listing, No};

/// Appends the constraint, if there is one.
pub fn append(list: &mut Listing, listed: Option<Listed>) -> Result<(), No>
    requires few { length list.old ≤ most_constraints }
    ensures appended { OnOk result (list.new ≡ list.old ++ cons_option listed []) }
    ensures few { OnOk result (length list.new ≤ most_constraints) }
    ensures refused { IfErr result (WhyNoConstraints (length list.old + length (cons_option listed []))) }
{
    match listed {
        Some(listed) => list.append(listed),
        None => Ok(()),
    }
}

/// Appends the pair, if there is one.
pub fn push(list: &mut Vec<(u32, u32)>, pair: Option<(u32, u32)>) -> Result<(), NoMemory>
    ensures { IfOk result (λ _. list.new.items ≡ list.old.items ++ cons_option pair []) }
{
    match pair {
        Some(pair) => {
            list.push(pair)?;
            Ok(())
        },
        None => Ok(()),
    }
}
