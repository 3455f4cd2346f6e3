//! A part's own system: its variables and the constraints that touch it, with numbers of their own.
ghost use Rattle.std.specs.Prelude.{◌≡◌, ℕ, ◌<◌, ◌^◌, IfOk, length, slice_get, slice_index, None, Some};
ghost use Rattle.ff_tables.specs.Orders.{term_at};
ghost use Rattle.ff_tables.specs.Systems.{AreFit};
ghost use Rattle.ff_propagate.specs.Facts.{value_at};
ghost use Rattle.ff_propagate.specs.Parts.{AreTouching};
ghost use Rattle.ff_solver.specs.Copies.{IsCopiedTerm, IsCopied, AreNamed, IsLonger, IsPlace, IsRising, AreCopied, AreOwnNumbers};

use arrayvec::ArrayVec;
use ff_propagate::{Facts, Part};
use ff_tables::{Constraint, NoMemory, Order, Term, Terms};
use std::alloc::Global;

/// For each own number the variable of the board that it names, and that variable's value on the board.
#[derive(Drop)]
pub(crate) struct Names {
    pub(crate) list: Vec<u32>,
    pub(crate) values: Vec<Option<Order>>,
}

/// The numbers below this one.
pub(crate) fn numbers_to(alloc: Global, count: u32) -> Result<Vec<u32>, NoMemory>
    ensures { IfOk result (λ numbers. AreOwnNumbers numbers.items count) }
{
    let mut numbers = Vec::with_capacity(alloc, count as usize)?;
    for number in 0..count {
        numbers.push_reserved(number);
    }
    Ok(numbers)
}

/// The names of the part's variables, which have no value.
pub(crate) fn names_of(alloc: Global, facts: &Facts, part: &[u32]) -> Result<Names, NoMemory>
    requires few { length part.now < 2 ^ 32 }
    requires undecided { (j : ℕ) → j < length part.now → value_at facts.now (slice_index part.now j) ≡ None }
    ensures { IfOk result (AreNamed facts.now part.now) }
{
    let _ = facts;
    Ok(Names {
        list: Vec::from_slice(alloc, part)?,
        values: vec![in alloc; None; part.len()]?,
    })
}

// Where the variable stands in the part, found by halving.
fn place_of(part: &[u32], var: u32) -> Option<usize>
    requires rising { IsRising part.now }
    ensures { IsPlace part.now var result }
{
    part.binary_search(&var).ok()
}

impl Names {
    // A new own number for the variable.
    fn name(&mut self, facts: &Facts, part: &[u32], var: u32) -> Result<u32, NoMemory>
        requires named { AreNamed facts.now part.now self.old }
        requires var { var < length facts.now }
        ensures named { IfOk result (λ _. AreNamed facts.now part.now self.new) }
        ensures longer { IfOk result (λ _. IsLonger self.old.list.items self.new.list.items) }
        ensures within { IfOk result (λ own. own < length self.new.list.items) }
        ensures name { IfOk result (λ own. slice_index self.new.list.items own ≡ var) }
    {
        let _ = part.len();
        let own = self.list.len();
        if own >= u32::MAX as usize {
            return Err(NoMemory);
        }
        self.list.push(var)?;
        self.values.push(facts.fact(var).map(|fact| fact.value))?;
        Ok(own as u32)
    }

    // The term by own numbers.
    fn term(&mut self, facts: &Facts, part: &[u32], term: Term) -> Result<Term, NoMemory>
        requires rising { IsRising part.now }
        requires named { AreNamed facts.now part.now self.old }
        requires var { term.var < length facts.now }
        ensures named { IfOk result (λ _. AreNamed facts.now part.now self.new) }
        ensures longer { IfOk result (λ _. IsLonger self.old.list.items self.new.list.items) }
        ensures copied { IfOk result (λ own. IsCopiedTerm part.now self.new.list.items term own) }
    {
        if let Some(place) = place_of(part, term.var) {
            return Ok(Term {
                var: place as u32,
                flipped: term.flipped,
            });
        }
        let var = self.name(facts, part, term.var)?;
        Ok(Term {
            var,
            flipped: term.flipped,
        })
    }

    // The constraint by own numbers.
    fn copied(
        &mut self,
        facts: &Facts,
        part: &[u32],
        con: &Constraint,
    ) -> Result<Constraint, NoMemory>
        requires rising { IsRising part.now }
        requires named { AreNamed facts.now part.now self.old }
        requires within { (j : ℕ) → j < length con.now.terms → (term_at con.now.terms j).var < length facts.now }
        ensures named { IfOk result (λ _. AreNamed facts.now part.now self.new) }
        ensures longer { IfOk result (λ _. IsLonger self.old.list.items self.new.list.items) }
        ensures copied { IfOk result (λ own. IsCopied part.now self.new.list.items con.now own) }
    {
        let terms = con.terms.as_slice();
        let mut list: ArrayVec<Term, 6> = ArrayVec::new();
        for j in 0..terms.len() {
            list.push(self.term(facts, part, terms[j])?);
        }
        Ok(Constraint {
            kind: con.kind,
            terms: Terms::of(list),
        })
    }

    /// The constraints that touch the part, by own numbers.
    pub(crate) fn copy_all(
        &mut self,
        alloc: Global,
        constraints: &[Constraint],
        facts: &Facts,
        part: &Part,
    ) -> Result<Vec<Constraint>, NoMemory>
        requires fit { AreFit (length facts.now) constraints.now }
        requires touching { AreTouching constraints.now part.now.vars part.now.touching }
        requires rising { IsRising part.now.vars }
        requires named { AreNamed facts.now part.now.vars self.old }
        ensures named { IfOk result (λ _. AreNamed facts.now part.now.vars self.new) }
        ensures copied { IfOk result (λ own. AreCopied constraints.now part.now.touching part.now.vars self.new.list.items own.items (length part.now.touching)) }
    {
        let vars = part.vars.as_slice();
        let numbers = part.touching.as_slice();
        let mut own = Vec::with_capacity(alloc, numbers.len())?;
        for k in 0..numbers.len() {
            own.push_reserved(self.copied(facts, vars, &constraints[numbers[k] as usize])?);
        }
        Ok(own)
    }
}
