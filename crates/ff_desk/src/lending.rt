//! What is done next.
ghost use Rattle.std.specs.Prelude.{◌≡◌, ℕ, ◌<◌, ◌≤◌, ◌^◌, IfOk, IfErr, OnOk, OnErr, length, Some, IsTrue};
ghost use Rattle.std.specs.Arc.{arc_value};
ghost use Rattle.ff_propagate.specs.Agreeing.{Agree};
ghost use Rattle.ff_propagate.specs.Closing.{GivensFit};
ghost use Rattle.ff_propagate.specs.FactRule.{MeetsFactRule};
ghost use Rattle.ff_carry.specs.Carrying.{IsCarried};
ghost use Rattle.ff_refute.specs.Givens.{AreGivens};
ghost use Rattle.ff_board.specs.Views.{AreFew, IsOpenedWith, IsAt};
ghost use Rattle.ff_journal.specs.Epochs.{last_begun, givens_of as epoch_givens};
ghost use Rattle.ff_journal.specs.Publications.{published as epochs_published};
ghost use Rattle.ff_told.specs.Ends.{IsRefutedBy};
ghost use Rattle.ff_desk.specs.Desks.{IsOpeningOf};
ghost use Rattle.ff_desk.specs.Prepared.{IsHeld, IsPrepared};
ghost use Rattle.ff_desk.specs.Steps.{Steps, IsSameButPresent, LentIs};

use crate::desk::Desk;
use crate::home::Home;
use crate::loans::{Lent, Loan};
use ff_board::{BoardSeat, EpochBoard, open_board};
use ff_carry::{Opened, carried_facts_meet_the_rule, carry};
use ff_journal::{Outcome, givens_of};
use ff_propagate::{Closed, Facts, close};
use ff_tables::{Given, Items, NoMemory};
use ff_told::refutation;
use ff_types::Case;
use std::alloc::Global;
use std::sync::Arc;

// The outcome of an epoch whose givens contradict each other.
fn contradicted(alloc: Global, case: &Case, givens: &Items<Given>) -> Result<Outcome, NoMemory>
    requires few { length case.now.system.constraints < 2 ^ 32 }
    requires many { length givens.now < 2 ^ 32 }
    requires fit { GivensFit case.now.system.vars givens.now }
    requires givens { AreGivens case.now givens.now }
    requires clash { Agree givens.now → ⊥ }
    ensures { IfOk result (λ o. IsRefutedBy case.now givens.now o) }
{
    let closed = close(alloc, &case.system, givens)?;
    match closed {
        Closed::Board(_) => unreachable!(),
        Closed::Clash { facts, at } => {
            let outcome = refutation(alloc, case, givens, &facts, at)?;
            Ok(outcome)
        }
    }
}

impl Desk {
    // A board that is opened with these facts.
    fn board_for(
        &self,
        alloc: Global,
        givens: &Items<Given>,
        facts: &Facts,
    ) -> Result<(EpochBoard, BoardSeat), NoMemory>
        requires rule { MeetsFactRule self.now.base.case.system.vars self.now.base.case.system.constraints givens.now facts.now }
        requires agree { Agree givens.now }
        requires few { AreFew self.now.base.case givens.now facts.now }
        ensures board { IfOk result (λ r. IsOpenedWith self.now.base.case givens.now facts.now r.0.opening) }
        ensures seat { IfOk result (λ r. IsAt r.0 r.1) }
    {
        match &self.home {
            Some(home) => {
                let opened = home.board().reopen(alloc, givens, facts)?;
                Ok(opened)
            }
            None => {
                let case = Arc::try_clone(self.base.shared())?;
                let opened = open_board(alloc, case, givens, facts)?;
                Ok(opened)
            }
        }
    }

    // The board of the least unpublished epoch is opened with the carried facts.
    fn hold(&mut self, alloc: Global, givens: Items<Given>, facts: Facts) -> Result<(), NoMemory>
        requires begun { epochs_published self.old.journal ≤ last_begun self.old.journal }
        requires givens { givens ≡ epoch_givens self.old.base.case self.old.journal (epochs_published self.old.journal) }
        requires agree { Agree givens }
        requires carried { IsCarried self.old.base.case.system.vars self.old.base.case.system.constraints givens self.old.facts facts }
        ensures same { IsSameButPresent self.old self.new }
        ensures held { OnOk result (IsHeld self.new.present) }
        ensures kept { OnErr result (self.new ≡ self.old) }
    {
        carried_facts_meet_the_rule();
        // the pairs are in order
        let _ = self.base.case().pairs.count();
        let (board, seat) = self.board_for(alloc, &givens, &facts)?;
        let board = Arc::new(alloc, board)?;
        self.present = Some(Home::of(board, seat));
        Ok(())
    }

    // The board of the least unpublished epoch is opened; or its givens contradict each other, and this is its outcome.
    pub(crate) fn prepare(&mut self, alloc: Global, epoch: u32) -> Result<Option<Outcome>, NoMemory>
        requires epoch { epoch ≡ epochs_published self.old.journal }
        requires begun { epochs_published self.old.journal ≤ last_begun self.old.journal }
        ensures same { IsSameButPresent self.old self.new }
        ensures prepared { IfOk result (λ o. IsPrepared self.old self.new o) }
        ensures kept { OnErr result (self.new ≡ self.old) }
    {
        let case = self.base.case();
        // the pairs are in order
        let _ = case.pairs.count();
        let givens = givens_of(alloc, case, &self.journal, epoch)?;
        match carry(alloc, &case.system, &self.facts, &self.givens, &givens)? {
            Opened::Board(facts) => {
                self.hold(alloc, givens, facts)?;
                Ok(None)
            }
            Opened::Clash { .. } => {
                let outcome = contradicted(alloc, case, &givens)?;
                Ok(Some(outcome))
            }
        }
    }

    // Whether there is a present board.
    fn is_held(&self) -> bool
        ensures { IsTrue result → IsHeld self.now.present }
    {
        match &self.present {
            Some(_) => true,
            None => false,
        }
    }

    // A seat of the present board is lent.
    fn loan(&mut self, epoch: u32) -> Result<Loan, NoMemory>
        requires epoch { epoch ≡ epochs_published self.old.journal }
        requires held { IsHeld self.old.present }
        ensures same { self.new ≡ self.old }
        ensures epoch { IfOk result (λ l. l.epoch ≡ epoch) }
        ensures opening { IfOk result (λ l. IsOpeningOf self.old.base.case self.old.journal epoch l.board.opening) }
    {
        carried_facts_meet_the_rule();
        match &mut self.present {
            None => unreachable!(),
            Some(home) => {
                let (board, seat) = home.lend()?;
                Ok(Loan { epoch, board, seat })
            }
        }
    }

    // The board of the least unpublished epoch is lent, or it is published at once.
    pub(crate) fn lend_board(&mut self, alloc: Global, epoch: u32) -> Result<Lent, NoMemory>
        requires epoch { epoch ≡ epochs_published self.old.journal }
        requires begun { epochs_published self.old.journal ≤ last_begun self.old.journal }
        ensures base { self.new.base ≡ self.old.base }
        ensures step { Steps self.old.journal self.new.journal }
        ensures lent { IfOk result (λ l. LentIs self.old self.new l) }
        ensures err { IfErr result (λ _. self.new.journal ≡ self.old.journal) }
    {
        if self.is_held() {
            let loan = self.loan(epoch)?;
            return Ok(Lent::Board(loan));
        }
        match self.prepare(alloc, epoch)? {
            None => {
                let loan = self.loan(epoch)?;
                Ok(Lent::Board(loan))
            }
            Some(outcome) => {
                self.publish_clash(epoch, outcome)?;
                Ok(Lent::Published)
            }
        }
    }

    /// What is done next: where all is published a search; else the board of the least unpublished epoch is lent, which is opened where
    /// there is none. An epoch whose givens contradict each other is published at once. After want of memory nothing is published.
    pub fn lend(&mut self, alloc: Global) -> Result<Lent, NoMemory>
        ensures base { self.new.base ≡ self.old.base }
        ensures step { Steps self.old.journal self.new.journal }
        ensures lent { IfOk result (λ l. LentIs self.old self.new l) }
        ensures err { IfErr result (λ _. self.new.journal ≡ self.old.journal) }
    {
        if self.is_idle() {
            let turn = self.search(alloc)?;
            return Ok(Lent::Searched(turn));
        }
        let epoch = self.published();
        self.lend_board(alloc, epoch)
    }
}
