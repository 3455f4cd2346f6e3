//! Scripts of one viewer and of two.
ghost use Rattle.std.specs.Prelude.{◌≡◌, ◌≤◌, [], ◌∷◌, length, IfOk};

use ff_tables::{Items, NoMemory, Order};
use ff_viewer::{Command, Question};
use std::alloc::Global;

/// The script of a viewer.
pub type Script = Items<Command>;

/// A script of these commands.
pub fn script(alloc: Global, commands: &[Said]) -> Result<Script, NoMemory> {
    let mut list = Vec::new(alloc);
    for &said in commands {
        list.push(command(said))?;
    }
    Ok(Items::of(list))
}

/// What a viewer of a trial says.
#[derive(Clone, Copy)]
pub enum Said {
    Look,
    Pin(u32, u32, Order),
    Unpin(u32, u32),
}

fn command(said: Said) -> Command {
    match said {
        Said::Look => Command::Ask(Question::Peek),
        Said::Pin(f, g, value) => Command::Pin { f, g, value },
        Said::Unpin(f, g) => Command::Unpin { f, g },
    }
}

/// The scripts of one viewer.
pub fn of_one(alloc: Global, script: Script) -> Result<Items<Script>, NoMemory>
    ensures { IfOk result (λ scripts. scripts ≡ script ∷ []) }
{
    let mut list = Vec::new(alloc);
    list.push(script)?;
    Ok(Items::of(list))
}

/// The scripts of two viewers.
pub fn of_two(alloc: Global, first: Script, second: Script) -> Result<Items<Script>, NoMemory>
    ensures { IfOk result (λ scripts. scripts ≡ first ∷ second ∷ []) }
{
    let mut list = Vec::new(alloc);
    list.push(first)?;
    list.push(second)?;
    Ok(Items::of(list))
}
