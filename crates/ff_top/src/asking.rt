//! What the words ask for.
ghost use Rattle.std.specs.Prelude.{◌≡◌, IfOk, IfSome, map, string_bytes};
ghost use Rattle.ff_words.specs.Form.{job_named};
ghost use Rattle.ff_top.specs.Asking.{bench_asked, AreWithin};
ghost use Rattle.ff_top.specs.Counts.{HasCount};

use ff_tables::NoMemory;
use ff_words::{Job, WordsNo, read_words};
use std::alloc::Global;

// What a job of a workbench asks for.
#[derive(Clone, Copy, Debug, PartialEq, Eq)]
pub(crate) struct Asked {
    pub(crate) budget: u64,
    pub(crate) workers: u32,
}

// The job that the words name, and None where they name none.
pub(crate) fn job_of(alloc: Global, words: &[String]) -> Result<Option<Job>, NoMemory>
    ensures job { IfOk result (λ job. job ≡ job_named (map string_bytes words.now)) }
    ensures counted { IfOk result HasCount }
    ensures within { IfOk result (λ job. IfSome (bench_asked job) AreWithin) }
{
    match read_words(alloc, words) {
        Ok(job) => Ok(Some(job)),
        Err(WordsNo::Usage) => Ok(None),
        Err(WordsNo::NoMemory) => Err(NoMemory),
    }
}

// What a job of a workbench asks for, and None for all else.
pub(crate) fn asked_of(job: Option<Job>) -> Option<Asked>
    ensures { result ≡ bench_asked job }
{
    match job? {
        Job::Bench { budget, workers } => Some(Asked { budget, workers }),
        Job::Solve { .. } | Job::Check | Job::Lines | Job::Make { .. } => None,
    }
}
