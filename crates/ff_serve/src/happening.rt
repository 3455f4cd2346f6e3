//! An event happens to a core, and its answer is dropped.
ghost use Rattle.std.specs.Prelude.{◌≡◌, OnOk};
ghost use Rattle.ff_core.specs.States.{StandsFor};
ghost use Rattle.ff_serve.specs.Reaching.{HasRoom, Happens};

use ff_core::{Core, Event, Step};
use ff_tables::NoMemory;
use ff_types::Case;
use std::alloc::Global;

// The answer is wanted by contracts alone.
fn forget(answer: Step, event: Event) {
    let _ = answer;
    let _ = event;
}

/// The event happens.
pub(crate) fn happen(
    alloc: Global,
    case: &Case,
    core: &mut Core,
    event: Event,
) -> Result<(), NoMemory>
    requires stands { StandsFor case.now core.old }
    requires room { HasRoom case.now core.old.journal }
    ensures stands { StandsFor case.now core.new }
    ensures happens { OnOk result (Happens case.now core.old event core.new) }
{
    match core.step(alloc, case, &event) {
        Ok(answer) => {
            forget(answer, event);
            Ok(())
        }
        Err(no_memory) => Err(no_memory),
    }
}
