//! What a log has said so far.
ghost use Rattle.std.specs.Prelude.{◌≡◌, ◌↔◌, IfOk, OnOk, IsTrue, List};
ghost use Rattle.ff_types.specs.declared.pins.Pin.{Pin as PinSpec};
ghost use Rattle.ff_types.specs.Sheets.{Sheet};
ghost use Rattle.ff_log.specs.declared.logs.LogLine.TheVariants as line;
ghost use Rattle.ff_log.specs.Grounds.{sheet_ground};
ghost use Rattle.ff_checker.specs.Verdicts.{IsTaken, IsForced, HasNoneLeft};
ghost use Rattle.ff_log.specs.Logs.{start as start_state, declare as declared_state, hold as held_state, open_branch, close as closed_state};
ghost use Rattle.ff_checker.specs.LogStates.{IsProgress, IsFitting, IsWithin, state_of};

use crate::held::Held;
use crate::reading::{claimed, forces, is_dead};
use crate::verdicts::WhyNot;
use ff_log::{Claim, Declared};
use ff_tables::{NoMemory, Order};
use smallvec::SmallVec;
use std::alloc::Global;

/// A branch that is open: what is tried in it, and how many claims held before.
#[derive(Clone, Copy, Default)]
pub(crate) struct Opened {
    pub(crate) tried: Claim,
    pub(crate) since: usize,
}

/// What a log has said so far. The innermost branch is the last one.
#[derive(Drop)]
pub(crate) struct Progress {
    pub(crate) held: Held,
    pub(crate) declared: Vec<Declared>,
    pub(crate) branches: SmallVec<Opened, 8>,
    pub(crate) ended: bool,
}

fn reversed(claim: Claim) -> Claim
    ensures { result ≡ Rattle.ff_log.specs.Logs.reversed claim }
{
    Claim {
        upper: claim.lower,
        lower: claim.upper,
    }
}

impl Progress {
    /// Nothing is said yet.
    pub(crate) fn of_none(alloc: Global, side: u32) -> Result<Progress, NoMemory>
        ensures progress { IfOk result (λ b. IsProgress b) }
        ensures state { IfOk result (λ b. state_of b ≡ start_state) }
        ensures side { IfOk result (λ b. b.held.side ≡ side) }
    {
        Ok(Progress {
            held: Held::of_none(alloc, side)?,
            declared: Vec::new(alloc),
            branches: SmallVec::new(alloc),
            ended: false,
        })
    }

    /// The constraint is declared.
    pub(crate) fn declare(&mut self, declared: Declared) -> Result<(), NoMemory>
        requires progress { IsProgress self.old }
        requires fitting { IsFitting self.old.held.side declared }
        ensures progress { OnOk result (IsProgress self.new) }
        ensures state { OnOk result (state_of self.new ≡ declared_state (state_of self.old) declared) }
        ensures side { OnOk result (self.new.held.side ≡ self.old.held.side) }
    {
        self.declared.push(declared)?;
        Ok(())
    }

    /// The claim holds from now on.
    pub(crate) fn hold(&mut self, claim: Claim) -> Result<(), NoMemory>
        requires progress { IsProgress self.old }
        requires within { IsWithin self.old.held.side claim }
        ensures progress { OnOk result (IsProgress self.new) }
        ensures state { OnOk result (state_of self.new ≡ held_state (state_of self.old) claim) }
        ensures side { OnOk result (self.new.held.side ≡ self.old.held.side) }
    {
        self.held.add(claim)?;
        Ok(())
    }

    /// A branch is open in which the claim holds.
    pub(crate) fn open(&mut self, claim: Claim) -> Result<(), NoMemory>
        requires progress { IsProgress self.old }
        requires within { IsWithin self.old.held.side claim }
        ensures progress { OnOk result (IsProgress self.new) }
        ensures state { OnOk result (state_of self.new ≡ open_branch (state_of self.old) claim) }
        ensures side { OnOk result (self.new.held.side ≡ self.old.held.side) }
    {
        self.branches.push(Opened {
            tried: claim,
            since: self.held.list.len(),
        })?;
        self.held.add(claim)?;
        Ok(())
    }

    /// The innermost branch is closed, or the log has ended.
    pub(crate) fn close(&mut self) -> Result<(), NoMemory>
        requires { IsProgress self.old }
        ensures progress { OnOk result (IsProgress self.new) }
        ensures state { OnOk result (state_of self.new ≡ closed_state (state_of self.old)) }
        ensures side { OnOk result (self.new.held.side ≡ self.old.held.side) }
    {
        match self.branches.pop() {
            None => {
                self.ended = true;
                Ok(())
            },
            Some(branch) => {
                self.held.undo(branch.since);
                self.held.add(reversed(branch.tried))?;
                Ok(())
            },
        }
    }

    /// The claim of `f` and `g` holds, if the constraint `by` forces it.
    pub(crate) fn force(
        &mut self,
        f: u32,
        g: u32,
        value: Order,
        by: u32,
    ) -> Result<Option<WhyNot>, NoMemory>
        requires { IsProgress self.old }
        ensures progress { OnOk result (IsProgress self.new) }
        ensures side { OnOk result (self.new.held.side ≡ self.old.held.side) }
        ensures taken { (sheet : Sheet) (pins : List PinSpec) →
            IfOk result (λ w. IsTaken (sheet_ground sheet pins) (state_of self.old) (line.Force f g value by) (state_of self.new) w) }
    {
        let claim = claimed(f, g, value);
        if !self.is_forced(by, claim) {
            return Ok(Some(WhyNot::NotForced));
        }
        self.hold(claim)?;
        Ok(None)
    }

    // Whether the constraint is declared and forces the claim.
    fn is_forced(&self, by: u32, claim: Claim) -> bool
        requires { IsProgress self.now }
        ensures forced { IsTrue result ↔ IsForced (state_of self.now) by claim }
        ensures within { IsTrue result → IsWithin self.now.held.side claim }
    {
        if by as usize >= self.declared.len() {
            return false;
        }
        forces(&self.held, &self.declared[by as usize], claim)
    }

    /// Closes, if the constraint has no row left.
    pub(crate) fn dead(&mut self, k: u32) -> Result<Option<WhyNot>, NoMemory>
        requires { IsProgress self.old }
        ensures progress { OnOk result (IsProgress self.new) }
        ensures side { OnOk result (self.new.held.side ≡ self.old.held.side) }
        ensures taken { (sheet : Sheet) (pins : List PinSpec) →
            IfOk result (λ w. IsTaken (sheet_ground sheet pins) (state_of self.old) (line.Dead k) (state_of self.new) w) }
    {
        if !self.has_none_left(k) {
            return Ok(Some(WhyNot::RowLeft));
        }
        self.close()?;
        Ok(None)
    }

    // Whether the constraint is declared and has no row left.
    fn has_none_left(&self, k: u32) -> bool
        requires { IsProgress self.now }
        ensures { IsTrue result ↔ HasNoneLeft (state_of self.now) k }
    {
        if k as usize >= self.declared.len() {
            return false;
        }
        is_dead(&self.held, &self.declared[k as usize])
    }

    /// Closes, if both orders of the faces hold.
    pub(crate) fn clash(&mut self, f: u32, g: u32) -> Result<Option<WhyNot>, NoMemory>
        requires { IsProgress self.old }
        ensures progress { OnOk result (IsProgress self.new) }
        ensures side { OnOk result (self.new.held.side ≡ self.old.held.side) }
        ensures taken { (sheet : Sheet) (pins : List PinSpec) →
            IfOk result (λ w. IsTaken (sheet_ground sheet pins) (state_of self.old) (line.Clash f g) (state_of self.new) w) }
    {
        if !self.held.has(claimed(f, g, Order::Above)) {
            return Ok(Some(WhyNot::RowLeft));
        }
        if !self.held.has(claimed(f, g, Order::Below)) {
            return Ok(Some(WhyNot::RowLeft));
        }
        self.close()?;
        Ok(None)
    }
}
