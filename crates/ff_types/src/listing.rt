//! The constraints of a case with their cites.
ghost use Rattle.std.specs.Prelude.{◌≡◌, ◌++◌, ◌∷◌, [], ◌<◌, ◌≤◌, length, map, OnOk, OnErr, IfErr, vec_len, vec_capacity};
ghost use Rattle.ff_types.specs.declared.refusals.No.TheVariants.{Refused};
ghost use Rattle.ff_types.specs.declared.refusals.Refusal.TheVariants.{TooMany};
ghost use Rattle.ff_types.specs.declared.refusals.What.TheVariants.{Constraints};
ghost use Rattle.ff_types.specs.declared.limits.TheConstants.{MOST_CONSTRAINTS as most_constraints};
ghost use Rattle.ff_types.specs.Splitting.{listed_of, constraint_of, cite_of, IsFull};

use crate::{Cite, Listed, MOST_CONSTRAINTS, No, Refusal, What};
use ff_tables::{Constraint, Items, NoMemory};
use std::alloc::Global;
use std::marker::Model;

/// Constraints with their cites, in order. They are split as they come, so that neither list has to be made anew.
/// Contracts see the list of both.
#[derive(Drop)]
pub struct Listing {
    constraints: Vec<Constraint>,
    cites: Vec<Cite>,
}

impl Model for Listing {
    ghost use Rattle.std.specs.Prelude.{List, ◌≡◌, length};
    ghost use Rattle.ff_types.specs.declared.cites.Listed.{Listed};
    ghost use Rattle.ff_types.specs.Splitting.{listed_of};

    ghost Value = { List Listed };

    ghost view = { λ a. listed_of a.constraints.items a.cites.items };

    ghost invariant = { λ a. length a.constraints.items ≡ length a.cites.items };
}

fn too_many() -> No
    ensures { result ≡ Refused (TooMany Constraints most_constraints) }
{
    No::Refused(Refusal::TooMany {
        what: What::Constraints,
        limit: MOST_CONSTRAINTS as u64,
    })
}

// Makes room for one more of each.
fn reserve_one(constraints: &mut Vec<Constraint>, cites: &mut Vec<Cite>) -> Result<(), NoMemory>
    ensures same_constraints { constraints.new.items ≡ constraints.old.items }
    ensures same_cites { cites.new.items ≡ cites.old.items }
    ensures room { OnOk result (vec_len constraints.new < vec_capacity constraints.new) }
    ensures room_too { OnOk result (vec_len cites.new < vec_capacity cites.new) }
{
    constraints.reserve(1)?;
    cites.reserve(1)?;
    Ok(())
}

impl Listing {
    /// An empty list.
    pub fn new(alloc: Global) -> Listing
        ensures { result ≡ [] }
    {
        Listing {
            constraints: Vec::new(alloc),
            cites: Vec::new(alloc),
        }
    }

    /// How many there are.
    pub fn count(&self) -> usize
        ensures { result ≡ length self.now }
    {
        self.cites.as_slice().len()
    }

    /// Appends a constraint, where there is room. After an error the list is as before.
    pub fn append(&mut self, listed: Listed) -> Result<(), No>
        ensures appended { OnOk result (self.new ≡ self.old ++ listed ∷ []) }
        ensures kept { OnErr result (self.new ≡ self.old) }
        ensures few { OnOk result (length self.new ≤ most_constraints) }
        ensures refused { IfErr result (IsFull (length self.old)) }
    {
        if self.cites.as_slice().len() >= MOST_CONSTRAINTS {
            return Err(too_many());
        }
        reserve_one(&mut self.constraints, &mut self.cites)?;
        self.constraints.push_reserved(listed.constraint);
        self.cites.push_reserved(listed.cite);
        Ok(())
    }

    /// The constraints and the cites. It takes no memory.
    pub fn parts(self) -> (Items<Constraint>, Items<Cite>)
        ensures constraints { result.0 ≡ map constraint_of self }
        ensures cites { result.1 ≡ map cite_of self }
    {
        (Items::of(self.constraints), Items::of(self.cites))
    }
}
