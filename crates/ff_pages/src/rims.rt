//! What a part borders on.
ghost use Rattle.std.specs.Prelude.{◌≡◌, ◌↔◌, ℕ, ◌<◌, IsTrue, Contains, length, slice_get, Some};
ghost use Rattle.ff_tables.specs.Orders.{term_at};
ghost use Rattle.ff_tables.specs.Systems.{AreFit};
ghost use Rattle.ff_propagate.specs.Facts.{value_at};
ghost use Rattle.ff_propagate.specs.Parts.{AreTouching};
ghost use Rattle.ff_alike.specs.Alike.{HaveSameRim};
ghost use Rattle.ff_pages.specs.Rims.{IsRising, HasSameRim};

use ff_propagate::{Facts, Part};
use ff_tables::{Constraint, Known};
use ff_types::Case;

// Whether the variable is of the part, by halving.
fn is_of(part: &[u32], var: u32) -> bool
    requires rising { IsRising part.now }
    ensures { IsTrue result ↔ Contains part.now var }
{
    part.binary_search(&var).is_ok()
}

// Whether both have the same values on the constraint's variables that aren't of the part.
fn same_beside(part: &[u32], con: &Constraint, old: &Facts, new: &Facts) -> bool
    requires rising { IsRising part.now }
    requires old { (j : ℕ) → j < length con.now.terms → (term_at con.now.terms j).var < length old.now }
    requires new { (j : ℕ) → j < length con.now.terms → (term_at con.now.terms j).var < length new.now }
    ensures { IsTrue result ↔ HasSameRim (value_at old.now) (value_at new.now) part.now con.now (length con.now.terms) }
{
    let terms = con.terms.as_slice();
    for j in 0..terms.len() {
        let var = terms[j].var;
        if !is_of(part, var) && old.value(var) != new.value(var) {
            return false;
        }
    }
    true
}

/// Whether both have the same values on the variables that aren't of the part, of all constraints that touch it.
pub(crate) fn same_rim(case: &Case, part: &Part, old: &Facts, new: &Facts) -> bool
    requires rising { IsRising part.now.vars }
    requires touching { AreTouching case.now.system.constraints part.now.vars part.now.touching }
    requires old { length old.now ≡ case.now.system.vars }
    requires new { length new.now ≡ case.now.system.vars }
    ensures { IsTrue result ↔ HaveSameRim case.now.system.constraints (value_at old.now) (value_at new.now) part.now.vars }
{
    let constraints = case.system.constraints.as_slice();
    let numbers = part.touching.as_slice();
    for k in 0..numbers.len() {
        let con = &constraints[numbers[k] as usize];
        if !same_beside(part.vars.as_slice(), con, old, new) {
            return false;
        }
    }
    true
}
