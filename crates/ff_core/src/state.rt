//! The state of the core.
ghost use Rattle.std.specs.Prelude.{◌≡◌};

use ff_journal::Entry;
use ff_pages::Pages;
use ff_propagate::{Fact, Facts};
use ff_tables::Items;
use std::marker::Model;

/// The pure machine of a workbench. Contracts see its journal, its budget, the facts of the epoch that it works on, those of the last
/// published epoch, and the pages of that board's parts, once one was asked for.
#[derive(Drop)]
pub struct Core {
    pub(crate) journal: Items<Entry>,
    pub(crate) budget: u64,
    pub(crate) working: Option<Vec<Option<Fact>>>,
    pub(crate) shown: Option<Facts>,
    pub(crate) pages: Option<Vec<Pages>>,
}

impl Model for Core {
    ghost use Rattle.std.specs.Prelude.{option_map};
    ghost use Rattle.ff_core.specs.States.{State};

    ghost Value = { State };

    ghost view = { λ a. record { journal = a.journal; budget = a.budget; working = option_map (λ fs. fs.items) a.working; shown = a.shown; pages = option_map (λ ps. ps.items) a.pages } };
}

impl Core {
    /// The entries so far. It takes no memory.
    pub fn journal(&self) -> &Items<Entry>
        ensures { result.now ≡ self.now.journal }
    {
        &self.journal
    }
}
