//! What the parts searched so far come to.
ghost use Rattle.std.specs.Prelude.{◌≡◌, ℕ, ◌+◌, ◌++◌, ◌∷◌, [], List, length, IfOk, Option};
ghost use Rattle.ff_near.specs.declared.parts.PartNear.{PartNear as PartNearSpec};
ghost use Rattle.ff_near.specs.Gathered.{AreGathered, earlier_of};

use crate::parts::{PartBest, PartNear};
use ff_tables::{Items, NoMemory, Order};
use std::alloc::Global;

/// Of the parts searched so far, the best solutions and the first of them of each that has some, the first part that has none, and the
/// first that isn't finished.
#[derive(Drop)]
pub(crate) struct Sofar {
    pub(crate) bests: Vec<PartBest>,
    pub(crate) firsts: Vec<Items<Order>>,
    pub(crate) none: Option<u32>,
    pub(crate) unfinished: Option<u32>,
}

// The earlier one, if there is one.
fn earlier(first: Option<u32>, k: u32) -> Option<u32>
    ensures { result ≡ earlier_of first k }
{
    match first {
        Some(j) => Some(j),
        None => Some(k),
    }
}

impl Sofar {
    /// No part is searched.
    pub(crate) fn nothing(alloc: Global) -> Sofar
        ensures { AreGathered [] result.bests.items result.firsts.items result.none result.unfinished }
    {
        Sofar {
            bests: Vec::new(alloc),
            firsts: Vec::new(alloc),
            none: None,
            unfinished: None,
        }
    }

    /// A part is searched.
    pub(crate) fn note(&mut self, k: u32, outcome: PartNear) -> Result<(), NoMemory>
        ensures { IfOk result (λ _. (outcomes : List PartNearSpec) → k ≡ length outcomes
            → AreGathered outcomes self.old.bests.items self.old.firsts.items self.old.none self.old.unfinished
            → AreGathered (outcomes ++ outcome ∷ []) self.new.bests.items self.new.firsts.items self.new.none self.new.unfinished) }
    {
        match outcome {
            PartNear::Best(best, first) => {
                self.bests.push(best)?;
                self.firsts.push(first)?;
            }
            PartNear::None => self.none = earlier(self.none, k),
            PartNear::Unfinished => self.unfinished = earlier(self.unfinished, k),
        }
        Ok(())
    }
}
