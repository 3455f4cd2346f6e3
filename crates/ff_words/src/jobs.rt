//! What the words ask for.
use clap::error::ErrorKind;
use std::alloc::AllocError;
use thiserror::Error;

/// What the words ask for. A budget is a number of turns, from 1 to 1000000000; workers are from 1 to 16; a count is from 1 to
/// 400.
#[derive(Clone, Copy, Debug, PartialEq, Eq)]
pub enum Job {
    Solve { budget: u64 },
    Check,
    Bench { budget: u64, workers: u32 },
    Lines,
    Make { count: u32, budget: u64 },
}

/// Why the words name no job.
#[derive(Clone, Copy, Debug, PartialEq, Eq, Error)]
pub enum WordsNo {
    #[error("the words aren't of the program's form")]
    Usage,
    #[error("out of memory")]
    NoMemory,
}

impl From<AllocError> for WordsNo {
    ghost use Rattle.std.specs.Prelude.{◌≡◌};
    ghost use Rattle.ff_words.specs.declared.jobs.WordsNo.TheVariants.{NoMemory as out_of_memory};

    ghost from_gives = { λ _ e. e ≡ out_of_memory };

    fn from(_refused: AllocError) -> WordsNo {
        WordsNo::NoMemory
    }
}

impl From<clap::Error> for WordsNo {
    ghost use Rattle.std.specs.Prelude.{◌≡◌};
    ghost use Rattle.clap.specs.Words.{kind_of};
    ghost use Rattle.ff_words.specs.App.{kind_no};

    ghost from_gives = { λ e n. n ≡ kind_no (kind_of e) };

    fn from(e: clap::Error) -> WordsNo {
        match e.kind() {
            ErrorKind::OutOfMemory => WordsNo::NoMemory,
            _ => WordsNo::Usage,
        }
    }
}
