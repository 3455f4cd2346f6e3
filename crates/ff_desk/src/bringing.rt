//! What was found is brought back.
ghost use Rattle.std.specs.Prelude.{◌≡◌, ◌≤◌, IfOk, IfErr, OnOk, OnErr};
ghost use Rattle.ff_propagate.specs.Agreeing.{Agree};
ghost use Rattle.ff_journal.specs.Epochs.{last_begun, givens_of};
ghost use Rattle.ff_journal.specs.Publications.{published as epochs_published};
ghost use Rattle.ff_told.specs.Ends.{IsRefutedBy};
ghost use Rattle.ff_desk.specs.Desks.{IsOpeningOf};
ghost use Rattle.ff_desk.specs.Steps.{Steps, PublishesOne, BringIs, turns_of};

use crate::desk::Desk;
use crate::home::Home;
use crate::loans::Found;
use ff_journal::{Entry, Outcome};
use ff_tables::NoMemory;

impl Desk {
    // The least unpublished epoch is published, whose givens contradict each other.
    pub(crate) fn publish_clash(&mut self, epoch: u32, outcome: Outcome) -> Result<(), NoMemory>
        requires epoch { epoch ≡ epochs_published self.old.journal }
        requires begun { epochs_published self.old.journal ≤ last_begun self.old.journal }
        requires clash { Agree (givens_of self.old.base.case self.old.journal (epochs_published self.old.journal)) → ⊥ }
        requires outcome { IsRefutedBy self.old.base.case (givens_of self.old.base.case self.old.journal (epochs_published self.old.journal)) outcome }
        ensures base { self.new.base ≡ self.old.base }
        ensures published { OnOk result (PublishesOne self.old.journal self.new.journal) }
        ensures turns { turns_of self.new ≡ turns_of self.old }
        ensures err { OnErr result (self.new ≡ self.old) }
    {
        // the pairs are in order
        let _ = self.base.case().pairs.count();
        self.journal.push(Entry::Published { epoch, outcome })?;
        self.present = None;
        self.earlier.hold(self.pages.take());
        Ok(())
    }

    // The least unpublished epoch is published by what was found on a board of it.
    fn publish(&mut self, found: Found) -> Result<(), NoMemory>
        requires opening { IsOpeningOf self.old.base.case self.old.journal found.epoch found.opening }
        requires epoch { found.epoch ≡ epochs_published self.old.journal }
        ensures base { self.new.base ≡ self.old.base }
        ensures published { OnOk result (PublishesOne self.old.journal self.new.journal) }
        ensures turns { turns_of self.new ≡ turns_of self.old }
        ensures err { OnErr result (self.new ≡ self.old) }
    {
        // the pairs are in order
        let _ = self.base.case().pairs.count();
        let Found {
            epoch,
            board,
            seat,
            givens,
            facts,
            outcome,
        } = found;
        self.journal.push(Entry::Published { epoch, outcome })?;
        self.givens = givens;
        self.facts = facts;
        self.home = Some(Home::of(board, seat));
        self.present = None;
        self.earlier.hold(self.pages.take());
        Ok(())
    }

    /// Publishes what was found where its epoch is the least unpublished one, and else drops it.
    pub fn bring(&mut self, found: Found) -> Result<(), NoMemory>
        requires opening { IsOpeningOf self.old.base.case self.old.journal found.epoch found.opening }
        ensures base { self.new.base ≡ self.old.base }
        ensures step { Steps self.old.journal self.new.journal }
        ensures turns { turns_of self.new ≡ turns_of self.old }
        ensures brought { IfOk result (λ _. BringIs found.epoch self.old self.new) }
        ensures err { IfErr result (λ _. self.new ≡ self.old) }
    {
        if found.epoch == self.published() {
            self.publish(found)
        } else {
            Ok(())
        }
    }
}
