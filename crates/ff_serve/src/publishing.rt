//! Publishing the epoch that has begun.
ghost use Rattle.std.specs.Prelude.{◌≡◌, ◌+◌, OnOk};
ghost use Rattle.ff_core.specs.States.{StandsFor};
ghost use Rattle.ff_journal.specs.Epochs.{last_begun};
ghost use Rattle.ff_journal.specs.Publications.{published as epochs_published};
ghost use Rattle.ff_serve.specs.Reaching.{HasRoom, IsOpened};
ghost use Rattle.ff_serve.specs.Served.{AllPublished, IsOnePublished};

use crate::deducing::deduce_all;
use crate::happening::happen;
use ff_core::{Core, Event, givens_of};
use ff_journal::published;
use ff_tables::NoMemory;
use ff_types::Case;
use std::alloc::Global;

// Publishes the last epoch begun, the only one that is unpublished.
pub(crate) fn publish(alloc: Global, case: &Case, core: &mut Core) -> Result<(), NoMemory>
    requires stands { StandsFor case.now core.old }
    requires room { HasRoom case.now core.old.journal }
    requires last { epochs_published core.old.journal ≡ last_begun core.old.journal }
    requires opened { IsOpened case.now core.old }
    ensures stands { StandsFor case.now core.new }
    ensures published { OnOk result (IsOnePublished core.old core.new) }
{
    let epoch = published(core.journal().as_slice());
    let givens = givens_of(alloc, case, core.journal(), epoch)?;
    deduce_all(alloc, case, core, &givens)?;
    happen(alloc, case, core, Event::Publish)
}
