//! What constraints do with facts.
ghost use Rattle.std.specs.Prelude.{◌≡◌, ℕ, ◌<◌, ◌^◌, length, None, Some, slice_get};
ghost use Rattle.ff_tables.specs.Forces.{ForcedIs};
ghost use Rattle.ff_propagate.specs.Facts.{value_at};
ghost use Rattle.ff_core.specs.Scans.{IsScanned, IsScannedTo, more_after};

use ff_propagate::Facts;
use ff_tables::{Forced, System, forced};

/// What the constraints do with facts: none forces more and none is dead; a constraint is dead; or none is, and the first that
/// forces a variable without a fact is this one.
#[derive(Clone, Copy, Debug, PartialEq, Eq)]
pub enum Scanned {
    Quiet,
    Dead(u32),
    More(u32),
}

// The first constraint so far that forces more.
fn next_more(more: Option<u32>, found: Forced, c: u32) -> Option<u32>
    ensures { result ≡ more_after more found c }
{
    match found {
        Forced::Value { .. } => match more {
            Some(d) => Some(d),
            None => Some(c),
        },
        Forced::Nothing => more,
        Forced::Dead => more,
    }
}

/// Goes over all constraints.
pub(crate) fn scan(system: &System, facts: &Facts) -> Scanned
    requires wide { length facts.now ≡ system.now.vars }
    requires few { length system.now.constraints < 2 ^ 32 }
    ensures { IsScanned system.now.constraints facts.now result }
{
    let constraints = system.constraints.as_slice();
    let mut more = None;
    for c in 0..constraints.len() {
        let found = forced(&constraints[c], facts);
        if let Forced::Dead = found {
            return Scanned::Dead(c as u32);
        }
        more = next_more(more, found, c as u32);
    }
    match more {
        Some(c) => Scanned::More(c),
        None => Scanned::Quiet,
    }
}
