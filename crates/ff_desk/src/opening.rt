//! A new desk.
ghost use Rattle.std.specs.Prelude.{◌≡◌, [], None, IfOk, OnOk, replicate};
ghost use Rattle.std.specs.Arc.{arc_value};
ghost use Rattle.ff_desk.specs.Desks.{IsFew};
ghost use Rattle.ff_desk.specs.Opened.{IsBlank, IsNew, IsFirstBoard};
ghost use Rattle.ff_desk.specs.Steps.{IsSameButPresent};

use crate::base::Base;
use crate::desk::Desk;
use crate::earlier::Earlier;
use ff_journal::Outcome;
use ff_propagate::Facts;
use ff_tables::{Items, NoMemory};
use ff_types::Case;
use std::alloc::Global;
use std::sync::Arc;

// How many entries there are at most: for each command two, its own and the publication of the epoch that it begins, and the publication
// of epoch 0. The number is memory to ask for, and nothing rests on it.
fn room_for(lengths: &[u32]) -> usize {
    let mut room = 1usize;
    for v in 0..lengths.len() {
        room = room.saturating_add(2 * lengths[v] as usize);
    }
    room
}

fn no_facts(alloc: Global, vars: u32) -> Result<Facts, NoMemory>
    ensures { IfOk result (λ facts. facts ≡ replicate vars None) }
{
    let facts = vec![in alloc; None; vars as usize]?;
    Ok(Facts::of(Items::of(facts)))
}

// The outcome is published by whoever comes next.
fn forget(outcome: Option<Outcome>) {
    let _ = outcome;
}

impl Desk {
    // A desk with an empty journal and no board.
    fn blank(alloc: Global, case: Case, lengths: Items<u32>, budget: u64) -> Result<Desk, NoMemory>
        requires few { IsFew record { case = case; budget = budget; lengths = lengths } }
        ensures base { IfOk result (λ d. d.base ≡ record { case = case; budget = budget; lengths = lengths }) }
        ensures blank { IfOk result (λ d. IsBlank d) }
    {
        let facts = no_facts(alloc, case.system.vars)?;
        let room = room_for(lengths.as_slice());
        let journal = Items::of(Vec::with_capacity(alloc, room)?);
        let shared = Arc::new(alloc, case)?;
        Ok(Desk {
            base: Base {
                case: shared,
                budget,
                lengths,
            },
            journal,
            givens: Items::of(Vec::new(alloc)),
            facts,
            home: None,
            present: None,
            pages: None,
            demanded: Vec::new(alloc),
            earlier: Earlier::none(alloc),
        })
    }

    // The board of epoch 0 is opened, unless two starts contradict each other.
    fn open_first(&mut self, alloc: Global) -> Result<(), NoMemory>
        requires blank { IsBlank self.old }
        ensures same { IsSameButPresent self.old self.new }
        ensures first { OnOk result (IsFirstBoard self.old.base.case self.new.present) }
    {
        let prepared = self.prepare(alloc, 0)?;
        // the present board is of epoch 0
        self.is_desk();
        forget(prepared);
        Ok(())
    }

    /// A desk with an empty journal and the board of epoch 0, unless two starts of the case contradict each other. It has room for all
    /// entries: each viewer has as many as its script is long, and there is a publication for each epoch.
    pub fn open(
        alloc: Global,
        case: Case,
        lengths: Items<u32>,
        budget: u64,
    ) -> Result<Desk, NoMemory>
        requires few { IsFew record { case = case; budget = budget; lengths = lengths } }
        ensures base { IfOk result (λ d. d.base ≡ record { case = case; budget = budget; lengths = lengths }) }
        ensures new { IfOk result (λ d. IsNew d) }
    {
        let mut desk = Desk::blank(alloc, case, lengths, budget)?;
        desk.open_first(alloc)?;
        Ok(desk)
    }
}
