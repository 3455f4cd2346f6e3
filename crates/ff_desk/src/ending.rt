//! The end of a desk.
ghost use Rattle.std.specs.Prelude.{◌≡◌, ◌≤◌, ◌+◌, OnOk};
ghost use Rattle.ff_journal.specs.Epochs.{last_begun};
ghost use Rattle.ff_journal.specs.Publications.{published as epochs_published};
ghost use Rattle.ff_journal.specs.Journals.{IsLegal};
ghost use Rattle.ff_desk.specs.Steps.{AllPublished, Publishes, PublishesOne, Steps};

use crate::desk::Desk;
use crate::examining::examine;
use crate::loans::Lent;
use ff_journal::Entry;
use ff_tables::{Items, NoMemory};
use std::alloc::Global;

impl Desk {
    // The least unpublished epoch is published.
    fn publish_next(&mut self, alloc: Global) -> Result<(), NoMemory>
        requires begun { epochs_published self.old.journal ≤ last_begun self.old.journal }
        ensures base { self.new.base ≡ self.old.base }
        ensures step { Steps self.old.journal self.new.journal }
        ensures published { OnOk result (PublishesOne self.old.journal self.new.journal) }
    {
        let epoch = self.published();
        let lent = self.lend_board(alloc, epoch)?;
        match lent {
            Lent::Searched(_) => unreachable!(),
            Lent::Published => Ok(()),
            Lent::Board(loan) => {
                let found = examine(alloc, loan)?;
                self.bring(found)
            }
        }
    }

    /// Publishes what is left.
    pub fn publish_all(&mut self, alloc: Global) -> Result<(), NoMemory>
        ensures base { self.new.base ≡ self.old.base }
        ensures publishes { Publishes self.old.journal self.new.journal }
        ensures all { OnOk result (AllPublished self.new.journal) }
    {
        // no more epochs are published than have begun
        self.is_desk();
        let left = self.begun() + 1 - self.published();
        for _n in 0..left {
            self.publish_next(alloc)?;
        }
        Ok(())
    }

    /// The journal.
    pub fn into_journal(self) -> Items<Entry>
        ensures journal { result ≡ self.journal }
        ensures legal { IsLegal self.base.case self.base.budget result }
    {
        self.journal
    }
}
