//! Commands of viewers.
ghost use Rattle.std.specs.Prelude.{◌≡◌, ℕ, ◌+◌, ◌-◌, ◌<◌, ◌≤◌, ◌↔◌, ◌^◌, length, IsTrue, MatchOption, is_some, Some};
ghost use Rattle.ff_journal.specs.Epochs.{last_of, last_begun};
ghost use Rattle.ff_journal.specs.Publications.{outcome_in, outcomes, published as epochs_published};
ghost use Rattle.ff_journal.specs.Reading.{one_if as number_of_flag};
ghost use Rattle.ff_journal.specs.Waiting.{IsBoardCommand, IsNotPublished};

use crate::reading::{begun, one_if};
use crate::{Entry, Outcome};
use ff_viewer::{Command, Question};

fn is_board(command: &Command) -> bool
    ensures { IsTrue result ↔ IsBoardCommand command.now }
{
    match command {
        Command::Ask(question) => match question {
            Question::Board => true,
            Question::Peek => false,
            Question::Order { .. } => false,
            Question::Parts => false,
            Question::Page { .. } => false,
            Question::Why { .. } => false,
            Question::Stack { .. } => false,
        },
        Command::Pin { .. } => false,
        Command::Unpin { .. } => false,
    }
}

fn is_published(entry: &Entry) -> bool
    ensures { result ≡ is_some (outcome_in entry.now) }
{
    match entry {
        Entry::Said { .. } => false,
        Entry::Published { .. } => true,
    }
}

/// How many epochs are published.
pub fn published(journal: &[Entry]) -> u32
    requires few { length journal.now < 2 ^ 32 }
    ensures value { result ≡ epochs_published journal.now }
    ensures few { result ≤ length journal.now }
{
    let mut count = 0;
    for i in 0..journal.len() {
        count += one_if(is_published(&journal[i]));
    }
    count
}

/// The epoch that has to be published before the command is answered: the first where none is, and the last begun where
/// its board is asked for.
pub fn waits_for(journal: &[Entry], command: &Command) -> Option<u32>
    requires few { length journal.now < 2 ^ 32 - 1 }
    ensures { MatchOption result ((e : ℕ) → IsNotPublished journal.now command.now e → ⊥) (λ e. IsNotPublished journal.now command.now e) }
{
    let count = published(journal);
    if count == 0 {
        return Some(0);
    }
    let last = begun(journal);
    if is_board(command) && count <= last {
        return Some(last);
    }
    None
}
