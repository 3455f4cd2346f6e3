//! Pages of an earlier board, kept until those of a later one are laid.
ghost use Rattle.std.specs.Prelude.{◌≡◌, ℕ, ◌+◌, ◌<◌, ◌^◌, [], length};
ghost use Rattle.ff_told.specs.Paged.{KeepAllPages};
ghost use Rattle.ff_told.specs.Earlier.{AreOrdered, AreAlongside, HaveTakenFrom, turns_in};
ghost use Rattle.ff_desk.specs.Views.{no_earlier};
ghost use Rattle.ff_desk.specs.Steps.{kept_after};

use crate::laid::Laid;
use ff_pages::Pages;
use ff_told::{take_over, turns_of};
use ff_types::Case;
use std::alloc::Global;
use std::marker::Model;

/// Pages of an earlier board, in order of their parts, and the turns that searches had visited whose pages were dropped.
#[derive(Drop)]
pub struct Earlier {
    list: Vec<Pages>,
    spent: u64,
}

impl Model for Earlier {
    ghost use Rattle.ff_desk.specs.Views.{EarlierView};

    ghost Value = { EarlierView };

    ghost view = { λ e. record { pages = e.list.items; spent = e.spent } };
}

impl Earlier {
    /// Nothing is kept.
    pub(crate) fn none(alloc: Global) -> Earlier
        ensures { result ≡ no_earlier }
    {
        Earlier {
            list: Vec::new(alloc),
            spent: 0,
        }
    }

    /// The pages that were laid are kept from now on, where there are some.
    pub(crate) fn hold(&mut self, laid: Option<Laid>)
        ensures { self.new ≡ kept_after laid self.old }
    {
        match laid {
            Some(pages) => self.list = pages.into_list(),
            None => {}
        }
    }

    /// What the kept pages found is taken over by those for whose parts they can be kept. The turns of the others are counted.
    pub(crate) fn move_to(&mut self, case: &Case, laid: &mut Laid)
        requires ordered { AreAlongside case.now laid.old self.old.pages }
        requires few { length self.old.pages < 2 ^ 32 }
        requires room { self.old.spent + turns_in self.old.pages + turns_in laid.old < 2 ^ 64 }
        ensures pages { KeepAllPages case.now laid.old laid.new }
        ensures taken { HaveTakenFrom case.now.system.constraints self.old.pages 0 laid.old laid.new }
        ensures none { self.new.pages ≡ [] }
        ensures turns { turns_in laid.new + self.new.spent ≡ turns_in laid.old + turns_in self.old.pages + self.old.spent }
    {
        self.spent += take_over(case, laid.list.as_mut_slice(), &mut self.list);
    }

    /// The turns that the searches of the kept pages have visited, and those of the dropped ones.
    pub(crate) fn turns(&self, case: &Case) -> u64
        requires ordered { (budget : ℕ) × AreOrdered case.now budget self.now.pages }
        requires few { length self.now.pages < 2 ^ 32 }
        requires room { self.now.spent + turns_in self.now.pages < 2 ^ 64 }
        ensures { result ≡ self.now.spent + turns_in self.now.pages }
    {
        self.spent + turns_of(case, self.list.as_slice())
    }
}
