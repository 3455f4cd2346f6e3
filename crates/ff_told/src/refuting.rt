//! Outcomes of epochs whose givens clash.
ghost use Rattle.std.specs.Prelude.{◌≡◌, ◌<◌, IfOk, length, drop, map, take};
ghost use Rattle.ff_propagate.specs.FactRule.{MeetsFactRule};
ghost use Rattle.ff_propagate.specs.Closing.{GivensFit};
ghost use Rattle.ff_refute.specs.Givens.{AreGivens, IsClash};
ghost use Rattle.ff_journal.specs.Epochs.{pin_of_given};
ghost use Rattle.ff_told.specs.Ends.{IsRefutedBy};

use ff_journal::Outcome;
use ff_propagate::{ClashAt, Facts, contradictions_clash, dead_facts_clash};
use ff_refute::log_of_clash;
use ff_tables::{Given, Items, NoMemory};
use ff_types::{Case, Pin};
use std::alloc::Global;

// The pin of a given on a pair of the case.
fn pin_of(case: &Case, given: Given) -> Pin
    requires { given.var < length case.now.pairs }
    ensures { result ≡ pin_of_given case.now.pairs given }
{
    let (f, g) = case.pairs.faces(given.var);
    Pin {
        f,
        g,
        value: given.value,
    }
}

// The pins of the givens that come after the starts.
fn pins_in(alloc: Global, case: &Case, givens: &[Given]) -> Result<Items<Pin>, NoMemory>
    requires fit { GivensFit case.now.system.vars givens.now }
    ensures { IfOk result (λ pins. pins ≡ map (pin_of_given case.now.pairs) (drop (length case.now.starts) givens.now)) }
{
    let starts = case.starts.as_slice();
    let mut pins = Vec::new(alloc);
    for i in starts.len()..givens.len() {
        pins.push(pin_of(case, givens[i]))?;
    }
    Ok(Items::of(pins))
}

/// The outcome of an epoch with these givens, the case's starts followed by pins, where they clash.
pub fn refutation(
    alloc: Global,
    case: &Case,
    givens: &Items<Given>,
    facts: &Facts,
    at: ClashAt,
) -> Result<Outcome, NoMemory>
    requires givens { AreGivens case.now givens.now }
    requires rule { MeetsFactRule case.now.system.vars case.now.system.constraints givens.now facts.now }
    requires clash { IsClash case.now.system.constraints givens.now facts.now at }
    ensures { IfOk result (λ outcome. IsRefutedBy case.now givens.now outcome) }
{
    contradictions_clash();
    dead_facts_clash();
    let log = log_of_clash(alloc, case, givens, facts, at)?;
    let list = givens.as_slice();
    let pins = pins_in(alloc, case, list)?;
    Ok(Outcome::Impossible { pins, log })
}
