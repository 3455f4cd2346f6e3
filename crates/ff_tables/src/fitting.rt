//! Makes a system, where its constraints fit.
ghost use Rattle.std.specs.Prelude.{◌≡◌, ℕ, ◌<◌, IsTrue, false, length};
ghost use Rattle.ff_tables.specs.declared.terms.Constraint.{Constraint as ConstraintSpec};
ghost use Rattle.ff_tables.specs.Systems.{AreFit, IsFit};
ghost use Rattle.ff_tables.specs.Fitting.{AreWithin, DifferFrom, AllDiffer, IsSystemOf};

use crate::lists::Items;
use crate::systems::System;
use crate::terms::{Constraint, Term, terms_of};

fn are_within(vars: u32, terms: &[Term]) -> bool
    ensures holds { IsTrue result → AreWithin vars terms.now }
    ensures fails { result ≡ false → AreWithin vars terms.now → ⊥ }
{
    for j in 0..terms.len() {
        if terms[j].var >= vars {
            return false;
        }
    }
    true
}

// Whether no term before the i-th has its variable.
fn differs(terms: &[Term], i: usize) -> bool
    requires i { i < length terms.now }
    ensures holds { IsTrue result → DifferFrom terms.now i }
    ensures fails { result ≡ false → DifferFrom terms.now i → ⊥ }
{
    for j in 0..i {
        if terms[i].var == terms[j].var {
            return false;
        }
    }
    true
}

fn all_differ(terms: &[Term]) -> bool
    ensures holds { IsTrue result → AllDiffer terms.now }
    ensures fails { result ≡ false → AllDiffer terms.now → ⊥ }
{
    for i in 0..terms.len() {
        if !differs(terms, i) {
            return false;
        }
    }
    true
}

fn is_fit(vars: u32, con: &Constraint) -> bool
    ensures holds { IsTrue result → IsFit vars con.now }
    ensures fails { result ≡ false → IsFit vars con.now → ⊥ }
{
    let terms = con.terms.as_slice();
    if terms.len() != terms_of(con.kind) {
        return false;
    }
    if !are_within(vars, terms) {
        return false;
    }
    all_differ(terms)
}

fn are_fit(vars: u32, constraints: &[Constraint]) -> bool
    ensures holds { IsTrue result → AreFit vars constraints.now }
    ensures fails { result ≡ false → AreFit vars constraints.now → ⊥ }
{
    for c in 0..constraints.len() {
        if !is_fit(vars, &constraints[c]) {
            return false;
        }
    }
    true
}

/// The system, exactly where each constraint has as many terms as its kind, on different variables below
/// `vars`.
pub fn system_of(vars: u32, constraints: Items<Constraint>) -> Option<System>
    ensures { IsSystemOf vars constraints result }
{
    if are_fit(vars, constraints.as_slice()) {
        Some(System { vars, constraints })
    } else {
        None
    }
}
