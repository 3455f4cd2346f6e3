//! The facts that an epoch is opened with.
ghost use Rattle.std.specs.Prelude.{◌≡◌, ◌+◌, ◌<◌, ◌≤◌, ◌^◌, IfOk, length, replicate, slice_get, None, Some, option_map};
ghost use Rattle.ff_propagate.specs.Closing.{GivensFit};
ghost use Rattle.ff_core.specs.States.{AreOpening, AreOpeningTo};
ghost use Rattle.ff_core.specs.Steps.{WorkNext};
ghost use Rattle.ff_journal.specs.Epochs.{last_begun};

use ff_journal::{Entry, begun, givens_of};
use ff_propagate::{Fact, Reason};
use ff_tables::{Given, Items, NoMemory};
use ff_types::Case;
use std::alloc::Global;

fn unset(alloc: Global, vars: u32) -> Result<Vec<Option<Fact>>, NoMemory>
    ensures { IfOk result (λ facts. facts.items ≡ replicate vars None) }
{
    let mut facts = Vec::with_capacity(alloc, vars as usize)?;
    for _v in 0..vars {
        facts.push_reserved(None);
    }
    Ok(facts)
}

// The i-th given counts where its variable has no fact.
fn give(facts: &mut Vec<Option<Fact>>, vars: u32, givens: &[Given], i: u32)
    requires there { i < length givens.now }
    requires fit { GivensFit vars givens.now }
    requires opening { AreOpeningTo vars givens.now i facts.old.items }
    ensures { AreOpeningTo vars givens.now (i + 1) facts.new.items }
{
    let _ = vars;
    let given = givens[i as usize];
    match facts[given.var as usize] {
        Some(_) => {}
        None => {
            facts[given.var as usize] = Some(Fact {
                value: given.value,
                level: 0,
                reason: Reason::Given(i),
            });
        }
    }
}

/// The facts of the givens, of which the first of a variable counts.
pub(crate) fn opening(
    alloc: Global,
    vars: u32,
    givens: &[Given],
) -> Result<Vec<Option<Fact>>, NoMemory>
    requires fit { GivensFit vars givens.now }
    requires few { length givens.now < 2 ^ 32 }
    ensures { IfOk result (λ facts. AreOpening vars givens.now facts.items) }
{
    let mut facts = unset(alloc, vars)?;
    for i in 0..givens.len() as u32 {
        give(&mut facts, vars, givens, i);
    }
    Ok(facts)
}

/// The facts that an epoch is opened with, where it has begun.
pub(crate) fn opened(
    alloc: Global,
    case: &Case,
    journal: &Items<Entry>,
    epoch: u32,
) -> Result<Option<Vec<Option<Fact>>>, NoMemory>
    requires room { length journal.now < 2 ^ 32 }
    requires few { length case.now.starts + last_begun journal.now < 2 ^ 32 }
    ensures { IfOk result (λ work. WorkNext case.now journal.now epoch (option_map (λ facts. facts.items) work)) }
{
    if begun(journal.as_slice()) < epoch {
        return Ok(None);
    }
    // the pairs are in order
    let _ = case.pairs.count();
    let givens = givens_of(alloc, case, journal, epoch)?;
    let list = givens.as_slice();
    let facts = opening(alloc, case.system.vars, list)?;
    Ok(Some(facts))
}
