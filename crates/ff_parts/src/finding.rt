//! The parts.
ghost use Rattle.std.specs.Prelude.{◌≡◌, ℕ, ◌<◌, ◌≤◌, ◌^◌, IfOk, Some, length, map, slice_get};
ghost use Rattle.ff_basics.specs.NumberedLists.{lists_in};
ghost use Rattle.ff_propagate.specs.Facts.{value_at};
ghost use Rattle.ff_propagate.specs.Parts.{AreParts, AreTouching, IsPart};
ghost use Rattle.ff_propagate.specs.declared.parts.Part.{Part as PartSpec};
ghost use Rattle.ff_propagate.specs.Boards.{IsBoardOf};
ghost use Rattle.ff_parts.specs.Labels.{IsBelow};
ghost use Rattle.ff_parts.specs.Lists.{touching_of, vars_of};
ghost use Rattle.ff_parts.specs.Factors.{FactorsFor};

use crate::gathering::gather;
use crate::labels::Labels;
use crate::marking::marks;
use ff_propagate::{Facts, Part};
use ff_tables::{Items, NoMemory, System};
use std::alloc::Global;

// Each list as a part, with the constraints that touch it.
fn wrap(alloc: Global, lists: Vec<Vec<u32>>, touching: Vec<Vec<u32>>) -> Result<Vec<Part>, NoMemory>
    requires as_many { length touching.items ≡ length lists.items }
    ensures vars { IfOk result (λ parts. vars_of parts.items ≡ lists_in lists.items) }
    ensures touching { IfOk result (λ parts. touching_of parts.items ≡ lists_in touching.items) }
{
    let mut parts = Vec::with_capacity(alloc, lists.len())?;
    for (vars, touching) in lists.into_iter().zip(touching) {
        parts.push_reserved(Part {
            vars: Items::of(vars),
            touching: Items::of(touching),
        });
    }
    Ok(parts)
}

// The parts of labelled variables, with the constraints that touch them.
fn labelled(
    alloc: Global,
    system: &System,
    facts: &Facts,
    labels: &Labels,
) -> Result<Vec<Part>, NoMemory>
    requires facts { length facts.now ≡ system.now.vars }
    requires few { length system.now.constraints < 2 ^ 32 }
    requires below { IsBelow system.now.vars system.now.constraints (value_at facts.now) system.now.vars labels.now }
    ensures parts { IfOk result (λ found. AreParts system.now.vars system.now.constraints (value_at facts.now) (vars_of found.items)) }
    ensures touching { IfOk result (λ found. (k : ℕ) (part : PartSpec) → slice_get found.items k ≡ Some part
        → AreTouching system.now.constraints part.vars part.touching) }
{
    let part_of = labels.part_of.as_slice();
    let many = labels.firsts.len();
    let lists = gather(alloc, part_of, many)?;
    let marks = marks(alloc, system, facts, part_of)?;
    let touching = gather(alloc, marks.as_slice(), many)?;
    let parts = wrap(alloc, lists, touching)?;
    Ok(parts)
}

/// The parts of what the facts leave undecided: the classes of the chain of links among undecided variables, where two undecided
/// variables of one constraint are linked. Each has its variables in increasing order, and the parts are in order of their least
/// variables. Each has the numbers of the constraints that touch it, in increasing order.
///
/// Choices of one solution of each part correspond one-to-one to the assignments that meet the system and hold the givens of
/// which the facts are the closure. Where a part has no solution there is no such assignment.
pub fn parts(alloc: Global, system: &System, facts: &Facts) -> Result<Items<Part>, NoMemory>
    requires board { IsBoardOf system.now.vars system.now.constraints facts.now }
    requires few { length system.now.constraints < 2 ^ 32 }
    ensures parts { IfOk result (λ found. AreParts system.now.vars system.now.constraints (value_at facts.now) (vars_of found)) }
    ensures each { IfOk result (λ found. (k : ℕ) (part : PartSpec) → slice_get found k ≡ Some part
        → IsPart system.now.vars system.now.constraints (value_at facts.now) part.vars) }
    ensures touching { IfOk result (λ found. (k : ℕ) (part : PartSpec) → slice_get found k ≡ Some part
        → AreTouching system.now.constraints part.vars part.touching) }
    ensures factors { IfOk result (λ found. FactorsFor system.now.vars system.now.constraints (value_at facts.now) (vars_of found)) }
{
    let labels = Labels::all(alloc, system, facts)?;
    let found = labelled(alloc, system, facts, &labels)?;
    Ok(Items::of(found))
}
