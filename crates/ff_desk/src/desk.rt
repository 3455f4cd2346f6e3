//! The value behind the door.
ghost use Rattle.std.specs.Prelude.{◌≡◌, ◌≤◌, IsTrue, false};
ghost use Rattle.ff_journal.specs.Epochs.{last_begun};
ghost use Rattle.ff_journal.specs.Publications.{published as epochs_published};
ghost use Rattle.ff_desk.specs.Desks.{IsDesk};
ghost use Rattle.ff_desk.specs.Steps.{AllPublished, turns_laid as turns_in_laid, turns_of};

use crate::base::Base;
use crate::earlier::Earlier;
use crate::home::Home;
use crate::laid::Laid;
use ff_door::Kept;
use ff_journal::{Entry, begun, published};
use ff_propagate::Facts;
use ff_tables::{Given, Items};
use std::marker::Model;

/// The value behind the door of a workbench. Contracts see its base, its journal, the givens and facts that are kept of the last
/// published epoch whose givens don't contradict each other, a board of that epoch and its seat, the board of the least unpublished
/// epoch, the pages of the last published board, which parts are demanded, and what is
/// kept of an earlier board's pages. Its type keeps that the journal is legal and that
/// no viewer has more entries than its script is long.
#[derive(Drop)]
pub struct Desk {
    pub(crate) base: Base,
    pub(crate) journal: Items<Entry>,
    pub(crate) givens: Items<Given>,
    pub(crate) facts: Facts,
    pub(crate) home: Option<Home>,
    pub(crate) present: Option<Home>,
    pub(crate) pages: Option<Laid>,
    pub(crate) demanded: Vec<bool>,
    pub(crate) earlier: Earlier,
}

impl Model for Desk {
    ghost use Rattle.ff_desk.specs.Views.{DeskView};
    ghost use Rattle.ff_desk.specs.Desks.{IsDesk};

    ghost Value = { DeskView };

    ghost view = { λ d. record { base = d.base; journal = d.journal; givens = d.givens; facts = d.facts; home = d.home; present = d.present; pages = d.pages; demanded = d.demanded.items; earlier = d.earlier } };

    ghost invariant = { λ d. IsDesk (record { base = d.base; journal = d.journal; givens = d.givens; facts = d.facts; home = d.home; present = d.present; pages = d.pages; demanded = d.demanded.items; earlier = d.earlier }) };
}

impl Kept for Desk {
    ghost use Rattle.ff_journal.specs.Epochs.{viewer_in};

    type Entry = Entry;

    type Base = Base;

    ghost listed = { λ d. d.journal };

    ghost names = { viewer_in };

    ghost base = { λ d. d.base };

    fn entries(&self) -> u64 {
        self.journal.as_slice().len() as u64
    }
}

impl Desk {
    /// What the type of a desk keeps.
    pub fn is_desk(&self)
        ensures { IsDesk self.now }
    {
        // opening the desk gives what its type keeps
        let _ = &self.journal;
    }

    /// The entries so far.
    pub fn journal(&self) -> &Items<Entry>
        ensures { result.now ≡ self.now.journal }
    {
        &self.journal
    }

    // How many epochs are published.
    pub(crate) fn published(&self) -> u32
        ensures value { result ≡ epochs_published self.now.journal }
        ensures few { result ≤ 1025 }
    {
        published(self.journal.as_slice())
    }

    // The last epoch begun.
    pub(crate) fn begun(&self) -> u32
        ensures value { result ≡ last_begun self.now.journal }
        ensures few { result ≤ 1024 }
    {
        begun(self.journal.as_slice())
    }

    /// The turns of the nodes that all searches have visited, those whose pages were dropped included. It takes no memory.
    pub fn turns(&self) -> u64
        ensures { result ≡ turns_of self.now }
    {
        let laid = self.turns_laid();
        self.earlier.turns(self.base.case()) + laid
    }

    // Those of the laid pages.
    fn turns_laid(&self) -> u64
        ensures { result ≡ turns_in_laid self.now.pages }
    {
        match &self.pages {
            Some(pages) => pages.turns(self.base.case()),
            None => 0,
        }
    }

    // Whether every epoch begun is published.
    pub(crate) fn is_idle(&self) -> bool
        ensures all { IsTrue result → AllPublished self.now.journal }
        ensures begun { result ≡ false → epochs_published self.now.journal ≤ last_begun self.now.journal }
    {
        // no more epochs are published than have begun
        self.is_desk();
        if self.published() > self.begun() {
            return true;
        }
        false
    }
}
