//! What the facts of an epoch come to: its board, or a refutation of its givens.
ghost use Rattle.std.specs.Prelude.{◌≡◌, ℕ, ◌+◌, ◌-◌, ◌<◌, ◌≤◌, ◌^◌, ◌↔◌, IsTrue, IfOk, MatchOption, length, drop, map, take, Some, slice_get};
ghost use Rattle.ff_tables.specs.declared.givens.Given.{Given as GivenSpec};
ghost use Rattle.ff_propagate.specs.Facts.{value_at};
ghost use Rattle.ff_propagate.specs.FactRule.{MeetsFactRule, HasGivenFact};
ghost use Rattle.ff_propagate.specs.Closing.{Contradict, GivensFit};
ghost use Rattle.ff_propagate.specs.Closure.{HoldsGivens};
ghost use Rattle.ff_refute.specs.Givens.{IsClash};
ghost use Rattle.ff_journal.specs.Epochs.{givens_of as epoch_givens, last_begun};
ghost use Rattle.ff_journal.specs.Publications.{IsOutcome};
ghost use Rattle.ff_core.specs.Ends.{IsMet, IsContradicted, ComesTo, IsRefuted};

use crate::scanning::{Scanned, scan};
use ff_journal::{Entry, Outcome, board_of, givens_of};
use ff_propagate::{ClashAt, Fact, Facts, Reason, quiet_facts_are_the_closure};
use ff_tables::{Given, Items, NoMemory, Order};
use ff_told::refutation;
use ff_types::Case;
use std::alloc::Global;

/// What facts come to: some constraint forces more, or the epoch ends with this outcome.
#[derive(Drop)]
pub enum Ended {
    More(u32),
    With(Outcome),
}

fn agree(a: Order, b: Order) -> bool
    ensures { IsTrue result ↔ a ≡ b }
{
    a == b
}

// The given of the fact, where the other one contradicts it.
fn contradicted(given: Given, fact: Fact) -> Option<u32>
    ensures { IsContradicted given fact result }
{
    if agree(fact.value, given.value) {
        return None;
    }
    match fact.reason {
        Reason::Given(first) => Some(first),
        Reason::Forced(_) => None,
    }
}

// The same for the fact of the given's variable.
fn contradicts(case: &Case, givens: &[Given], facts: &Facts, i: usize) -> Option<u32>
    requires there { i < length givens.now }
    requires fit { GivensFit case.now.system.vars givens.now }
    requires rule { MeetsFactRule case.now.system.vars case.now.system.constraints givens.now facts.now }
    ensures { MatchOption result (IsMet givens.now facts.now i) (λ first. IsClash case.now.system.constraints givens.now facts.now (ClashAt.Givens first i)) }
{
    let _ = case;
    let given = givens[i];
    match facts.fact(given.var) {
        Some(fact) => contradicted(given, fact),
        None => None,
    }
}

// Two givens that contradict each other, if there are such.
fn contradiction(case: &Case, givens: &[Given], facts: &Facts) -> Option<ClashAt>
    requires few { length givens.now < 2 ^ 32 }
    requires fit { GivensFit case.now.system.vars givens.now }
    requires rule { MeetsFactRule case.now.system.vars case.now.system.constraints givens.now facts.now }
    ensures { MatchOption result (HoldsGivens givens.now (value_at facts.now)) (λ at. IsClash case.now.system.constraints givens.now facts.now at) }
{
    for i in 0..givens.len() {
        match contradicts(case, givens, facts, i) {
            Some(first) => {
                return Some(ClashAt::Givens {
                    first,
                    second: i as u32,
                });
            }
            None => {}
        }
    }
    None
}

// The outcome of an epoch whose givens clash.
fn refuted(
    alloc: Global,
    case: &Case,
    journal: &Items<Entry>,
    epoch: u32,
    givens: &Items<Given>,
    facts: &Facts,
    at: ClashAt,
) -> Result<Outcome, NoMemory>
    requires givens { givens.now ≡ epoch_givens case.now journal.now epoch }
    requires rule { MeetsFactRule case.now.system.vars case.now.system.constraints givens.now facts.now }
    requires clash { IsClash case.now.system.constraints givens.now facts.now at }
    ensures { IfOk result (λ outcome. IsRefuted case.now journal.now epoch outcome) }
{
    let _ = journal;
    let _ = epoch;
    // the pairs are in order
    let _ = case.pairs.count();
    let outcome = refutation(alloc, case, givens, facts, at)?;
    Ok(outcome)
}

// What facts come to that hold the givens.
fn scanned(
    alloc: Global,
    case: &Case,
    journal: &Items<Entry>,
    epoch: u32,
    givens: &Items<Given>,
    facts: &Facts,
) -> Result<Ended, NoMemory>
    requires constraints { length case.now.system.constraints < 2 ^ 32 }
    requires givens { givens.now ≡ epoch_givens case.now journal.now epoch }
    requires rule { MeetsFactRule case.now.system.vars case.now.system.constraints givens.now facts.now }
    requires holds { HoldsGivens givens.now (value_at facts.now) }
    ensures { IfOk result (λ ended. ComesTo case.now journal.now epoch facts.now ended) }
{
    quiet_facts_are_the_closure();
    match scan(&case.system, facts) {
        Scanned::Dead(c) => {
            let outcome = refuted(alloc, case, journal, epoch, givens, facts, ClashAt::Dead(c))?;
            Ok(Ended::With(outcome))
        }
        Scanned::More(c) => Ok(Ended::More(c)),
        Scanned::Quiet => {
            let board = board_of(alloc, case.system.vars, facts)?;
            Ok(Ended::With(Outcome::Board(board)))
        }
    }
}

/// What the facts of an epoch come to.
pub(crate) fn outcome_of(
    alloc: Global,
    case: &Case,
    journal: &Items<Entry>,
    epoch: u32,
    facts: &Facts,
) -> Result<Ended, NoMemory>
    requires few { length case.now.starts + last_begun journal.now < 2 ^ 32 }
    requires constraints { length case.now.system.constraints < 2 ^ 32 }
    requires begun { epoch ≤ last_begun journal.now }
    requires rule { MeetsFactRule case.now.system.vars case.now.system.constraints (epoch_givens case.now journal.now epoch) facts.now }
    ensures { IfOk result (λ ended. ComesTo case.now journal.now epoch facts.now ended) }
{
    // the pairs are in order
    let _ = case.pairs.count();
    let givens = givens_of(alloc, case, journal, epoch)?;
    let list = givens.as_slice();
    match contradiction(case, list, facts) {
        Some(at) => {
            let outcome = refuted(alloc, case, journal, epoch, &givens, facts, at)?;
            Ok(Ended::With(outcome))
        }
        None => {
            let ended = scanned(alloc, case, journal, epoch, &givens, facts)?;
            Ok(ended)
        }
    }
}
