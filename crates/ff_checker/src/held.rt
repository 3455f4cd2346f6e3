//! The claims that hold, in the order in which they came to hold.
ghost use Rattle.std.specs.Prelude.{◌≡◌, ◌<◌, ◌≤◌, ◌*◌, ◌^◌, [], IsTrue, IfOk, OnOk, length, take};
ghost use Rattle.ff_log.specs.declared.claims.Claim.{Claim as ClaimSpec};
ghost use Rattle.ff_log.specs.Logs.{holds, with_claim};
ghost use Rattle.ff_checker.specs.LogStates.{IsHeld, IsWithin, place_of};

use ff_log::Claim;
use ff_tables::NoMemory;
use std::alloc::Global;

/// The claims that hold, with a flag for each two faces, so that looking one up and taking one back is a step each.
#[derive(Drop)]
pub(crate) struct Held {
    pub(crate) side: u32,
    pub(crate) flags: Vec<bool>,
    pub(crate) list: Vec<Claim>,
}

fn place(side: u32, claim: Claim) -> usize
    ensures { result ≡ place_of side claim }
{
    claim.upper as usize * side as usize + claim.lower as usize
}

impl Held {
    /// None hold, of faces with numbers below `side`.
    pub(crate) fn of_none(alloc: Global, side: u32) -> Result<Held, NoMemory>
        ensures held { IfOk result (λ h. IsHeld h) }
        ensures none { IfOk result (λ h. h.list.items ≡ []) }
        ensures side { IfOk result (λ h. h.side ≡ side) }
    {
        let size = side as usize * side as usize;
        Ok(Held {
            side,
            flags: vec![in alloc; false; size]?,
            list: Vec::new(alloc),
        })
    }

    /// Whether the claim holds.
    #[inline]
    pub(crate) fn has(&self, claim: Claim) -> bool
        requires { IsHeld self.now }
        ensures { result ≡ holds self.now.list.items claim }
    {
        if claim.upper >= self.side || claim.lower >= self.side {
            return false;
        }
        self.flags[place(self.side, claim)]
    }

    /// The claim holds from now on.
    pub(crate) fn add(&mut self, claim: Claim) -> Result<(), NoMemory>
        requires held { IsHeld self.old }
        requires within { IsWithin self.old.side claim }
        ensures held { OnOk result (IsHeld self.new) }
        ensures added { OnOk result (self.new.list.items ≡ with_claim self.old.list.items claim) }
        ensures side { self.new.side ≡ self.old.side }
    {
        if self.has(claim) {
            return Ok(());
        }
        self.list.push(claim)?;
        self.flags[place(self.side, claim)] = true;
        Ok(())
    }

    /// The claims after the first `mark` hold no more.
    pub(crate) fn undo(&mut self, mark: usize)
        requires held { IsHeld self.old }
        requires mark { mark ≤ length self.old.list.items }
        ensures held { IsHeld self.new }
        ensures left { self.new.list.items ≡ take mark self.old.list.items }
        ensures side { self.new.side ≡ self.old.side }
    {
        while self.list.len() > mark {
            if let Some(claim) = self.list.pop() {
                self.flags[place(self.side, claim)] = false;
            }
        }
    }
}
