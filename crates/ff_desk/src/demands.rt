//! Which parts entries demand.
ghost use Rattle.std.specs.Prelude.{◌≡◌, ℕ, ◌+◌, ◌<◌, ◌⊎◌, ◌↔◌, length};
ghost use Rattle.ff_desk.specs.Demands.{demand_of as demanded_by, page_demand as page_demanded_by, stack_demand as stack_demanded_by};
ghost use Rattle.ff_desk.specs.Marks.{AreMarked};

use ff_viewer::{Command, Question, Reply};

/// What an entry demands.
#[derive(Clone, Copy, Debug, PartialEq, Eq)]
pub enum Demand {
    Nothing,
    /// The part with this number.
    Part(u32),
    /// All parts.
    All,
}

fn page_demand(part: u32, told: &Reply) -> Demand
    ensures { result ≡ page_demanded_by part told.now }
{
    match told {
        Reply::Impossible => Demand::Nothing,
        Reply::NoPart => Demand::Nothing,
        _ => Demand::Part(part),
    }
}

fn stack_demand(told: &Reply) -> Demand
    ensures { result ≡ stack_demanded_by told.now }
{
    match told {
        Reply::Impossible => Demand::Nothing,
        Reply::Count(_) => Demand::Nothing,
        _ => Demand::All,
    }
}

/// What a command with its reply demands.
pub(crate) fn demand_of(command: &Command, told: &Reply) -> Demand
    ensures { result ≡ demanded_by command.now told.now }
{
    match command {
        Command::Ask(question) => match question {
            Question::Page { part, .. } => page_demand(*part, told),
            Question::Stack { .. } => stack_demand(told),
            Question::Board => Demand::Nothing,
            Question::Peek => Demand::Nothing,
            Question::Order { .. } => Demand::Nothing,
            Question::Parts => Demand::Nothing,
            Question::Why { .. } => Demand::Nothing,
        },
        Command::Pin { .. } => Demand::Nothing,
        Command::Unpin { .. } => Demand::Nothing,
    }
}

fn mark_one(marks: &mut [bool], part: u32)
    ensures { AreMarked marks.old (Demand.Part part) marks.new }
{
    if (part as usize) < marks.len() {
        marks[part as usize] = true;
    }
}

fn mark_all(marks: &mut [bool])
    ensures { AreMarked marks.old Demand.All marks.new }
{
    for p in 0..marks.len() {
        marks[p] = true;
    }
}

/// Marks the demanded parts.
pub(crate) fn mark(marks: &mut Vec<bool>, demand: Demand)
    ensures { AreMarked marks.old.items demand marks.new.items }
{
    match demand {
        Demand::Nothing => {}
        Demand::Part(part) => mark_one(marks.as_mut_slice(), part),
        Demand::All => mark_all(marks.as_mut_slice()),
    }
}
