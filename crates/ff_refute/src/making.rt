//! A log over a case, as it is made.
ghost use Rattle.std.specs.Prelude.{◌≡◌, ℕ, ◌<◌, ◌^◌, ◌∷◌, ◌++◌, [], List, IfOk, length, slice_get, Some, Contains};
ghost use Rattle.ff_tables.specs.declared.orders.Order.TheVariants.{Below, Above};
ghost use Rattle.ff_log.specs.declared.claims.Claim.{Claim};
ghost use Rattle.ff_log.specs.Logs.{with_claim, Branch};
ghost use Rattle.ff_log.specs.Grounds.{claim_of_given};
ghost use Rattle.ff_refute.specs.Givens.{AreGivens, pin_claims};
ghost use Rattle.ff_refute.specs.Making.{claim_of, Holds, IsMaking, IsDeclaring, CanForce, CanClose, Shuts};

use ff_log::LogLine;
use ff_tables::{Given, GivenBy, Items, NoMemory, Order};
use ff_types::Case;
use std::alloc::Global;
use std::collections::BTreeMap;

/// The lines so far, and for each constraint that they declare its number among those.
#[derive(Drop)]
pub(crate) struct Maker {
    pub(crate) lines: Vec<LogLine>,
    pub(crate) numbers: BTreeMap<u32, u32>,
    pub(crate) count: u32,
}

impl Maker {
    pub(crate) fn new(alloc: Global, case: &Case) -> Maker
        ensures { (pins : List Claim) → IsMaking case.now pins [] [] result }
    {
        let _ = case;
        Maker {
            lines: Vec::new(alloc),
            numbers: BTreeMap::new(alloc),
            count: 0,
        }
    }

    // Declares the constraint.
    fn declare_new(&mut self, case: &Case, c: u32) -> Result<u32, NoMemory>
        requires c { c < length case.now.system.constraints }
        ensures { IfOk result (λ k. (pins held : List Claim) (branches : List Branch) → IsMaking case.now pins held branches self.old
            → IsDeclaring case.now pins held branches c k self.new) }
    {
        let k = self.count;
        if k == u32::MAX {
            return Err(NoMemory);
        }
        self.lines
            .push(LogLine::Use(case.cites.as_slice()[c as usize]))?;
        self.numbers.insert(c, k)?;
        self.count = k + 1;
        Ok(k)
    }

    /// Declares the constraint, where it isn't declared yet. Its number among those that are declared.
    pub(crate) fn declare(&mut self, case: &Case, c: u32) -> Result<u32, NoMemory>
        requires c { c < length case.now.system.constraints }
        ensures { IfOk result (λ k. (pins held : List Claim) (branches : List Branch) → IsMaking case.now pins held branches self.old
            → IsDeclaring case.now pins held branches c k self.new) }
    {
        if let Some(k) = self.numbers.get(&c) {
            return Ok(*k);
        }
        self.declare_new(case, c)
    }

    /// The constraint forces the value.
    pub(crate) fn force(
        &mut self,
        case: &Case,
        var: u32,
        value: Order,
        c: u32,
    ) -> Result<(), NoMemory>
        requires c { c < length case.now.system.constraints }
        requires var { var < case.now.system.vars }
        ensures { IfOk result (λ _. (pins held : List Claim) (branches : List Branch) → IsMaking case.now pins held branches self.old
            → CanForce case.now held c var value → IsMaking case.now pins (with_claim held (claim_of case.now.pairs var value)) branches self.new) }
    {
        let by = self.declare(case, c)?;
        let (f, g) = case.pairs.faces(var);
        self.lines.push(LogLine::Force { f, g, value, by })?;
        Ok(())
    }

    /// The constraint is dead.
    pub(crate) fn dead(&mut self, case: &Case, c: u32) -> Result<(), NoMemory>
        requires c { c < length case.now.system.constraints }
        ensures { IfOk result (λ _. (pins held : List Claim) (branches : List Branch) → IsMaking case.now pins held branches self.old
            → CanClose case.now held c → Shuts case.now pins branches self.new) }
    {
        let k = self.declare(case, c)?;
        self.lines.push(LogLine::Dead(k))?;
        Ok(())
    }

    /// Both values of the variable hold.
    pub(crate) fn clash(&mut self, case: &Case, var: u32) -> Result<(), NoMemory>
        requires var { var < case.now.system.vars }
        ensures { IfOk result (λ _. (pins held : List Claim) (branches : List Branch) → IsMaking case.now pins held branches self.old
            → Holds held (claim_of case.now.pairs var Above) → Holds held (claim_of case.now.pairs var Below)
            → Shuts case.now pins branches self.new) }
    {
        let (f, g) = case.pairs.faces(var);
        self.lines.push(LogLine::Clash { f, g })?;
        Ok(())
    }

    /// Opens a branch in which the value holds.
    pub(crate) fn try_value(&mut self, case: &Case, var: u32, value: Order) -> Result<(), NoMemory>
        requires var { var < case.now.system.vars }
        ensures { IfOk result (λ _. (pins held : List Claim) (branches : List Branch) → IsMaking case.now pins held branches self.old
            → IsMaking case.now pins (with_claim held (claim_of case.now.pairs var value))
            (record { tried = claim_of case.now.pairs var value; before = held } ∷ branches) self.new) }
    {
        let (f, g) = case.pairs.faces(var);
        self.lines.push(LogLine::Try { f, g, value })?;
        Ok(())
    }

    /// The i-th given holds.
    pub(crate) fn give(
        &mut self,
        case: &Case,
        givens: &Items<Given>,
        i: u32,
    ) -> Result<(), NoMemory>
        requires givens { AreGivens case.now givens.now }
        requires i { i < length givens.now }
        ensures { IfOk result (λ _. (held : List Claim) (branches : List Branch) → IsMaking case.now (pin_claims case.now givens.now) held branches self.old
            → (g : _) → slice_get givens.now i ≡ Some g
            → IsMaking case.now (pin_claims case.now givens.now) (with_claim held (claim_of_given case.now.pairs g)) branches self.new) }
    {
        let starts = case.starts.as_slice().len();
        let line = match givens.as_slice()[i as usize].by {
            GivenBy::Crease(e) => LogLine::Crease(e),
            GivenBy::Pin => LogLine::Pin((i as usize - starts) as u32),
        };
        self.lines.push(line)?;
        Ok(())
    }
}
