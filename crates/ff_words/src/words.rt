//! The words after the program's name, read by clap as one simple command.
ghost use Rattle.std.specs.Prelude.{◌≡◌, [], ◌∷◌, Some, codes, map, string_bytes, IfOk, MatchResult};
ghost use Rattle.std.specs.List.{list_any};
ghost use Rattle.std.specs.Str.{bytes_eq};
ghost use Rattle.ff_words.specs.Form.{job_named, job_at, Fails};
ghost use Rattle.ff_words.specs.App.{app, job_in_found, listed, shown};
ghost use Rattle.clap.specs.Words.{app_of, found_of};

use crate::jobs::{Job, WordsNo};
use crate::numbers::{number, setting};
use clap::{Arg, ArgMatches, Command};
use std::alloc::{AllocError, Global};

// The one command: two words and two options.
fn command<'a>(alloc: Global) -> Result<Command<'a>, AllocError>
    ensures { IfOk result (λ c. app_of c ≡ app) }
{
    let mode = Arg::new(alloc, "mode");
    let count = Arg::new(alloc, "count");
    let budget = Arg::new(alloc, "budget").long("budget");
    let workers = Arg::new(alloc, "workers").long("workers");
    let plain = Command::new(alloc, "flatfold")
        .no_binary_name(true)
        .disable_help_flag(true);
    plain.arg(mode)?.arg(count)?.arg(budget)?.arg(workers)
}

// The budget where none is said, and the greatest.
const BUDGET: u64 = 1 << 20;

const MOST_TURNS: u64 = 1000000000;

// The workers where none are said, and the most.
const WORKERS: u64 = 2;

const MOST_WORKERS: u64 = 16;

// The greatest count of `make`.
const MOST_COUNT: u64 = 400;

// The job of one word and the options.
fn job_of_word(mode: &str, budget: Option<&str>, workers: Option<&str>) -> Option<Job>
    ensures { result ≡ job_at (mode.now ∷ []) (listed (shown budget.entry)) (listed (shown workers.entry)) }
{
    match mode {
        "solve" if workers.is_none() => Some(Job::Solve {
            budget: setting(budget, BUDGET, MOST_TURNS)?,
        }),
        "check" if budget.is_none() && workers.is_none() => Some(Job::Check),
        "bench" => Some(Job::Bench {
            budget: setting(budget, BUDGET, MOST_TURNS)?,
            workers: setting(workers, WORKERS, MOST_WORKERS)? as u32,
        }),
        "lines" if budget.is_none() && workers.is_none() => Some(Job::Lines),
        _ => None,
    }
}

// The job of `make` and a count.
fn job_of_make(mode: &str, count: &str, budget: Option<&str>, workers: Option<&str>) -> Option<Job>
    ensures { result ≡ job_at (mode.now ∷ count.now ∷ []) (listed (shown budget.entry)) (listed (shown workers.entry)) }
{
    if mode != "make" || workers.is_some() {
        return None;
    }
    Some(Job::Make {
        count: number(count, MOST_COUNT)? as u32,
        budget: setting(budget, BUDGET, MOST_TURNS)?,
    })
}

// The job of what was found.
fn job_in<'a>(matches: &ArgMatches<'a>) -> Option<Job>
    ensures { result ≡ job_in_found (found_of matches.now) }
{
    let budget = matches.get_str("budget");
    let workers = matches.get_str("workers");
    match (matches.get_str("mode"), matches.get_str("count")) {
        (Some(mode), Some(count)) => job_of_make(mode, count, budget, workers),
        (Some(mode), None) => job_of_word(mode, budget, workers),
        (None, _) => None,
    }
}

// Whether some word is `--`.
fn has_dashes(words: &[String]) -> bool
    ensures { result ≡ list_any (λ s. bytes_eq (string_bytes s) (codes "--")) words.now }
{
    words.iter().any(|word| word.as_str() == "--")
}

/// The job that the words after the program's name name: Usage exactly where they have no such form. An option is
/// `--budget N` or `--budget=N`, `--workers N` or `--workers=N`, each at most once, at any place; N is one to ten decimal
/// digits. Without the options the words are `solve`, `check`, `bench`, `lines`, or `make COUNT`.
pub fn read_words(alloc: Global, words: &[String]) -> Result<Job, WordsNo>
    ensures { MatchResult result (λ job. job_named (map string_bytes words.now) ≡ Some job) (Fails (job_named (map string_bytes words.now))) }
{
    if has_dashes(words) {
        return Err(WordsNo::Usage);
    }
    match command(alloc)?.try_get_matches_from(words) {
        Ok(matches) => job_in(&matches).ok_or(WordsNo::Usage),
        Err(error) => Err(WordsNo::from(error)),
    }
}
