//! The nearest stackings of a case.
ghost use Rattle.std.specs.Prelude.{◌≡◌, ℕ, ◌+◌, ◌*◌, ◌≤◌, ◌<◌, ◌^◌, [], IfOk, length, slice_get, take, Some, None};
ghost use Rattle.ff_propagate.specs.Boards.{IsBoardOf};
ghost use Rattle.ff_propagate.specs.Facts.{value_at};
ghost use Rattle.ff_propagate.specs.Parts.{IsPart, AreParts, AreTouching};
ghost use Rattle.ff_parts.specs.Lists.{vars_of};
ghost use Rattle.ff_propagate.specs.Choices.{value_of};
ghost use Rattle.ff_near.specs.Filled.{HasValues};
ghost use Rattle.ff_near.specs.Near.{IsNear};
ghost use Rattle.ff_near.specs.Wishes.{AreWishes};
ghost use Rattle.ff_propagate.specs.declared.parts.Part.{Part as PartSpec};
ghost use Rattle.ff_near.specs.Weights.{AreWeights};
ghost use Rattle.ff_near.specs.Gathered.{HasSearched};

use crate::counting::{decided, total_cost};
use crate::filling::{closure_values, put_solutions};
use crate::parts::Near;
use crate::searching::search_part;
use crate::sofar::Sofar;
use crate::weighing::{Weights, weights_of};
use ff_propagate::{Facts, Part};
use ff_tables::{Items, NoMemory, Order};
use ff_types::{Case, Pin};
use std::alloc::Global;

// What all parts come to.
fn searched(
    alloc: Global,
    case: &Case,
    facts: &Facts,
    parts: &[Part],
    list: &[Pin],
    weights: &Weights,
    budget: u64,
) -> Result<Sofar, NoMemory>
    requires board { IsBoardOf case.now.system.vars case.now.system.constraints facts.now }
    requires parts { (k : ℕ) (part : PartSpec) → slice_get parts.now k ≡ Some part
        → IsPart case.now.system.vars case.now.system.constraints (value_at facts.now) part.vars }
    requires touching { (k : ℕ) (part : PartSpec) → slice_get parts.now k ≡ Some part
        → AreTouching case.now.system.constraints part.vars part.touching }
    requires few { length case.now.system.constraints < 2 ^ 32 }
    requires few_parts { length parts.now < 2 ^ 32 }
    requires weights { AreWeights case.now.pairs list.now weights.now.below.items weights.now.above.items }
    requires few_items { length list.now < 2 ^ 32 }
    requires budget { budget < 2 ^ 32 }
    ensures { IfOk result (λ s. HasSearched case.now list.now (value_at facts.now) budget parts.now s.bests.items s.firsts.items s.none s.unfinished) }
{
    let mut sofar = Sofar::nothing(alloc);
    for k in 0..parts.len() {
        let outcome = search_part(alloc, case, facts, &parts[k], list, weights, budget)?;
        sofar.note(k as u32, outcome)?;
    }
    Ok(sofar)
}

// The values of the closure and of the first best solution of each part.
fn first_values(
    alloc: Global,
    case: &Case,
    facts: &Facts,
    parts: &[Part],
    list: &[Pin],
    budget: u64,
    sofar: &Sofar,
) -> Result<Vec<Order>, NoMemory>
    requires wide { length facts.now ≡ case.now.system.vars }
    requires parts { AreParts case.now.system.vars case.now.system.constraints (value_at facts.now) (vars_of parts.now) }
    requires searched { HasSearched case.now list.now (value_at facts.now) budget parts.now sofar.now.bests.items sofar.now.firsts.items None None }
    ensures long { IfOk result (λ values. length values.items ≡ case.now.system.vars) }
    ensures has { IfOk result (λ values. HasValues (value_of (value_at facts.now) (vars_of parts.now) sofar.now.firsts.items) values.items) }
{
    let _ = list;
    let _ = budget;
    let mut values = closure_values(alloc, facts, case.system.vars)?;
    put_solutions(&mut values, parts, sofar.firsts.as_slice());
    Ok(values)
}

// The answer where each part has a best solution.
fn best_of(
    alloc: Global,
    case: &Case,
    facts: &Facts,
    parts: &[Part],
    list: &[Pin],
    budget: u64,
    sofar: Sofar,
) -> Result<Near, NoMemory>
    requires wide { length facts.now ≡ case.now.system.vars }
    requires parts { AreParts case.now.system.vars case.now.system.constraints (value_at facts.now) (vars_of parts.now) }
    requires few_parts { length parts.now < 2 ^ 32 }
    requires wishes { AreWishes case.now.pairs list.now }
    requires few_items { length list.now + 1 < 2 ^ 32 }
    requires searched { HasSearched case.now list.now (value_at facts.now) budget parts.now sofar.bests.items sofar.firsts.items None None }
    ensures { IfOk result (IsNear case.now list.now (value_at facts.now) budget parts.now) }
{
    let values = first_values(alloc, case, facts, parts, list, budget, &sofar)?;
    let decided = decided(case, facts, list);
    let distance = decided as u64 + total_cost(sofar.bests.as_slice());
    Ok(Near::Best {
        distance: distance as u32,
        decided,
        parts: Items::of(sofar.bests),
        values: Items::of(values),
    })
}

/// How near stackings can come to given orders, part by part. Each part is searched within the budget of turns. Where a finished part has no
/// solution the answer is the least such part; else where one isn't finished, the least such; else all best solutions of each part,
/// the distance of their stackings, and the stacking of the first ones.
pub fn near(
    alloc: Global,
    case: &Case,
    facts: &Facts,
    parts: &Items<Part>,
    wanted: &Items<Pin>,
    budget: u64,
) -> Result<Near, NoMemory>
    requires board { IsBoardOf case.now.system.vars case.now.system.constraints facts.now }
    requires parts { AreParts case.now.system.vars case.now.system.constraints (value_at facts.now) (vars_of parts.now) }
    requires touching { (k : ℕ) (part : PartSpec) → slice_get parts.now k ≡ Some part
        → AreTouching case.now.system.constraints part.vars part.touching }
    requires few { length case.now.system.constraints < 2 ^ 32 }
    requires few_parts { length parts.now < 2 ^ 32 }
    requires wishes { AreWishes case.now.pairs wanted.now }
    requires few_items { length wanted.now + 1 < 2 ^ 32 }
    requires budget { budget < 2 ^ 32 }
    ensures { IfOk result (IsNear case.now wanted.now (value_at facts.now) budget parts.now) }
{
    let list = wanted.as_slice();
    let weights = weights_of(alloc, case, list)?;
    let sofar = searched(alloc, case, facts, parts.as_slice(), list, &weights, budget)?;
    if let Some(part) = sofar.none {
        return Ok(Near::None { part });
    }
    if let Some(part) = sofar.unfinished {
        return Ok(Near::Unfinished { part });
    }
    best_of(alloc, case, facts, parts.as_slice(), list, budget, sofar)
}
