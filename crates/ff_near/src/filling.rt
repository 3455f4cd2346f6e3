//! One list of the values of a closure and of solutions of its parts.
ghost use Rattle.std.specs.Prelude.{◌≡◌, ℕ, ◌+◌, ◌≤◌, ◌<◌, IfOk, length, Option, slice_get, Some, List};
ghost use Rattle.ff_tables.specs.declared.orders.Order.{Order as OrderSpec};
ghost use Rattle.ff_propagate.specs.Facts.{value_at};
ghost use Rattle.ff_propagate.specs.declared.parts.Part.{Part as PartSpec};
ghost use Rattle.ff_propagate.specs.Choices.{value_of};
ghost use Rattle.ff_propagate.specs.Solutions.{joint};
ghost use Rattle.ff_parts.specs.Lists.{vars_of};
ghost use Rattle.ff_near.specs.Weights.{AreWithin};
ghost use Rattle.ff_near.specs.Filled.{HasValues};

use ff_propagate::{Facts, Part};
use ff_tables::{Items, Known, NoMemory, Order};
use std::alloc::Global;

/// The values of the closure, with Below in the place of those that it hasn't.
pub(crate) fn closure_values(
    alloc: Global,
    facts: &Facts,
    vars: u32,
) -> Result<Vec<Order>, NoMemory>
    requires { length facts.now ≡ vars }
    ensures long { IfOk result (λ values. length values.items ≡ vars) }
    ensures has { IfOk result (λ values. HasValues (value_at facts.now) values.items) }
{
    let mut values = Vec::new(alloc);
    for v in 0..vars {
        values.push(facts.value(v).unwrap_or(Order::Below))?;
    }
    Ok(values)
}

/// Writes a solution of the part.
pub(crate) fn put_solution(values: &mut Vec<Order>, part: &[u32], solution: &[Order])
    requires within { AreWithin (length values.old.items) part.now }
    requires as_many { length solution.now ≡ length part.now }
    ensures long { length values.new.items ≡ length values.old.items }
    ensures has { (known : ℕ → Option OrderSpec) → HasValues known values.old.items → HasValues (joint known part.now solution.now) values.new.items }
{
    let mut k = part.len();
    while k > 0 {
        k -= 1;
        values[part[k] as usize] = solution[k];
    }
}

/// Writes a solution of each part.
pub(crate) fn put_solutions(values: &mut Vec<Order>, parts: &[Part], solutions: &[Items<Order>])
    requires within { (k : ℕ) (part : PartSpec) → slice_get parts.now k ≡ Some part → AreWithin (length values.old.items) part.vars }
    requires as_many { length solutions.now ≡ length parts.now }
    requires long { (k : ℕ) (part : PartSpec) (solution : List OrderSpec) → slice_get parts.now k ≡ Some part → slice_get solutions.now k ≡ Some solution
        → length solution ≡ length part.vars }
    ensures long { length values.new.items ≡ length values.old.items }
    ensures has { (known : ℕ → Option OrderSpec) → HasValues known values.old.items
        → HasValues (value_of known (vars_of parts.now) solutions.now) values.new.items }
{
    let mut k = parts.len();
    while k > 0 {
        k -= 1;
        put_solution(values, parts[k].vars.as_slice(), solutions[k].as_slice());
    }
}
