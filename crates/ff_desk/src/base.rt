//! What never changes.
ghost use Rattle.std.specs.Prelude.{◌≡◌};
ghost use Rattle.std.specs.Arc.{arc_value};

use ff_tables::Items;
use ff_types::Case;
use std::marker::Model;
use std::sync::Arc;

/// The case, the budget of turns of each part, and for each viewer the length of its script.
#[derive(Drop)]
pub struct Base {
    pub(crate) case: Arc<Case>,
    pub(crate) budget: u64,
    pub(crate) lengths: Items<u32>,
}

impl Model for Base {
    ghost use Rattle.std.specs.Arc.{arc_value};
    ghost use Rattle.ff_desk.specs.Views.{BaseView};

    ghost Value = { BaseView };

    ghost view = { λ b. record { case = arc_value b.case; budget = b.budget; lengths = b.lengths } };
}

impl Base {
    /// The case.
    pub(crate) fn case(&self) -> &Case
        ensures { result.now ≡ self.now.case }
    {
        &self.case
    }

    /// The case, which is shared with boards.
    pub(crate) fn shared(&self) -> &Arc<Case>
        ensures { arc_value result.now ≡ self.now.case }
    {
        &self.case
    }

    /// The budget.
    pub(crate) fn budget(&self) -> u64
        ensures { result ≡ self.now.budget }
    {
        self.budget
    }

    /// For each viewer the length of its script.
    pub fn lengths(&self) -> &[u32]
        ensures { result.now ≡ self.now.lengths }
    {
        self.lengths.as_slice()
    }
}
