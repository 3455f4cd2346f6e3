//! Serving the viewers one after the other.
ghost use Rattle.std.specs.Prelude.{◌≡◌, ◌+◌, ◌*◌, ◌<◌, ◌≤◌, ◌^◌, OnOk, IfOk, length, slice_get, Some, [], take};
ghost use Rattle.ff_core.specs.States.{StandsFor};
ghost use Rattle.ff_journal.specs.Epochs.{last_begun};
ghost use Rattle.ff_journal.specs.Publications.{published as epochs_published};
ghost use Rattle.ff_journal.specs.Journals.{IsLegalFor, IsComplete, script_of};
ghost use Rattle.ff_serve.specs.Reaching.{HasRoom};
ghost use Rattle.ff_serve.specs.Served.{event_of as command_event, AllPublished, IsAtMostOneBegun, HasMorePublished, HasRoomFor, HasCommonRoom, IsServed, AreServed, commands_in};

use crate::happening::happen;
use crate::publishing::publish;
use ff_core::{Core, Event};
use ff_journal::{begun, published};
use ff_outside::{Gate, GateAt};
use ff_tables::{Items, NoMemory};
use ff_types::Case;
use ff_viewer::Command;
use std::alloc::Global;

// The event of a viewer's command.
fn event_of(alloc: Global, viewer: u32, command: &Command) -> Result<Event, NoMemory>
    ensures { IfOk result (λ event. event ≡ command_event viewer command.now) }
{
    match command {
        Command::Pin { f, g, value } => Ok(Event::Pin {
            viewer,
            f: *f,
            g: *g,
            value: *value,
        }),
        Command::Unpin { f, g } => Ok(Event::Unpin {
            viewer,
            f: *f,
            g: *g,
        }),
        Command::Ask(question) => {
            let question = question.copy(alloc)?;
            Ok(Event::Ask { viewer, question })
        }
    }
}

// Publishes the epoch that has begun, if one has.
fn publish_begun(alloc: Global, case: &Case, core: &mut Core) -> Result<(), NoMemory>
    requires stands { StandsFor case.now core.old }
    requires room { HasRoom case.now core.old.journal }
    requires next { IsAtMostOneBegun case.now core.old }
    ensures stands { StandsFor case.now core.new }
    ensures all { OnOk result (AllPublished core.new.journal) }
    ensures more { OnOk result (HasMorePublished core.old core.new) }
{
    let entries = core.journal().as_slice();
    if published(entries) > begun(entries) {
        return Ok(());
    }
    publish(alloc, case, core)
}

// Serves a command, with its publication.
fn serve_one<G: Gate>(
    alloc: Global,
    case: &Case,
    core: &mut Core,
    viewer: u32,
    index: u32,
    command: &Command,
    gate: &G,
) -> Result<(), NoMemory>
    requires stands { StandsFor case.now core.old }
    requires room { HasRoomFor case.now core.old.journal 2 }
    requires all { AllPublished core.old.journal }
    ensures stands { StandsFor case.now core.new }
    ensures all { OnOk result (AllPublished core.new.journal) }
    ensures served { OnOk result (IsServed viewer command.now core.old.journal core.new.journal) }
    ensures budget { OnOk result (core.new.budget ≡ core.old.budget) }
{
    let event = event_of(alloc, viewer, command)?;
    happen(alloc, case, core, event)?;
    gate.pass(GateAt::Answered { viewer, index });
    publish_begun(alloc, case, core)
}

// Serves the script of a viewer.
fn serve_viewer<G: Gate>(
    alloc: Global,
    case: &Case,
    core: &mut Core,
    scripts: &[Items<Command>],
    viewer: u32,
    gate: &G,
) -> Result<(), NoMemory>
    requires stands { StandsFor case.now core.old }
    requires there { viewer < length scripts.now }
    requires case { HasCommonRoom case.now }
    requires short { commands_in scripts.now ≤ 2 ^ 20 }
    requires few { length core.old.journal ≤ 1 + 2 * commands_in (take viewer scripts.now) }
    requires all { AllPublished core.old.journal }
    requires served { AreServed scripts.now viewer 0 core.old.journal }
    ensures stands { StandsFor case.now core.new }
    ensures few { OnOk result (length core.new.journal ≤ 1 + 2 * commands_in (take (viewer + 1) scripts.now)) }
    ensures all { OnOk result (AllPublished core.new.journal) }
    ensures served { OnOk result (AreServed scripts.now (viewer + 1) 0 core.new.journal) }
    ensures budget { OnOk result (core.new.budget ≡ core.old.budget) }
{
    let script = scripts[viewer as usize].as_slice();
    for index in 0..script.len() as u32 {
        serve_one(
            alloc,
            case,
            core,
            viewer,
            index,
            &script[index as usize],
            gate,
        )?;
    }
    Ok(())
}

/// The workbench on one thread: epoch 0 is published, and then the viewers are served one after the other, the epoch of each accepted change
/// being published at once. The gate is passed after each reply. The journal is legal for the scripts and complete.
pub fn serve<G: Gate>(
    alloc: Global,
    case: &Case,
    budget: u64,
    scripts: &Items<Items<Command>>,
    gate: &G,
) -> Result<Core, NoMemory>
    requires turns { budget ≤ 1000000000 }
    requires starts { length case.now.starts < 2 ^ 31 }
    requires constraints { length case.now.system.constraints < 2 ^ 32 }
    requires viewers { length scripts.now < 2 ^ 32 }
    requires short { commands_in scripts.now ≤ 2 ^ 20 }
    ensures stands { IfOk result (λ core. StandsFor case.now core) }
    ensures legal { IfOk result (λ core. IsLegalFor case.now budget scripts.now core.journal) }
    ensures complete { IfOk result (λ core. IsComplete scripts.now core.journal) }
{
    let mut core = Core::new(alloc, case, budget)?;
    publish(alloc, case, &mut core)?;
    let all = scripts.as_slice();
    for viewer in 0..all.len() as u32 {
        serve_viewer(alloc, case, &mut core, all, viewer, gate)?;
    }
    Ok(core)
}
