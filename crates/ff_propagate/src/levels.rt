//! Levels above those of known terms.
ghost use Rattle.std.specs.Prelude.{◌≡◌, ℕ, ◌+◌, ◌<◌, ◌≤◌, ◌^◌, length};
ghost use Rattle.ff_tables.specs.Orders.{term_at};
ghost use Rattle.ff_propagate.specs.Levels.{AreLow, IsOver};

use crate::facts::Fact;
use ff_tables::Term;

/// One more than the greatest level of the facts of the terms' variables, or 1 where none has a fact.
pub(crate) fn level_over(facts: &[Option<Fact>], terms: &[Term], most: u32) -> u32
    requires terms { (j : ℕ) → j < length terms.now → (term_at terms.now j).var < length facts.now }
    requires low { AreLow facts.now most }
    requires few { most + 1 < 2 ^ 32 }
    ensures over { IsOver facts.now terms.now result }
    ensures some { 0 < result }
    ensures low { result ≤ most + 1 }
{
    let mut level = 1;
    for j in 0..terms.len() {
        if let Some(fact) = facts[terms[j].var as usize] {
            if level <= fact.level {
                level = fact.level + 1;
            }
        }
    }
    level
}
