//! The givens of an epoch: the starts of the case, then its pins in force.
ghost use Rattle.std.specs.Prelude.{◌≡◌, ℕ, ◌+◌, ◌<◌, ◌≤◌, ◌^◌, ◌++◌, ◌∷◌, [], IfOk, OnOk, length, replicate, take, slice_get, Bool, true, false, if◌then◌else◌};
ghost use Rattle.ff_types.specs.Pairs.{ArePairs, pair_at};
ghost use Rattle.ff_journal.specs.Epochs.{changes, in_force_after, last_begun, givens_of as epoch_givens};
ghost use Rattle.ff_journal.specs.Reading.{given_if, givens_on, faces_named as named_faces, AreTouched, IsTouchedBy};

use crate::Entry;
use crate::reading::{is_change, is_in_force};
use ff_tables::{Given, GivenBy, Items, NoMemory, Order};
use ff_types::Case;
use ff_viewer::Command;
use std::alloc::Global;

// The faces that the entry pins or unpins.
fn faces_named(entry: &Entry) -> Option<(u32, u32)>
    ensures { result ≡ named_faces entry.now }
{
    match entry {
        Entry::Said { command, .. } => match command {
            Command::Pin { f, g, .. } => Some((*f, *g)),
            Command::Unpin { f, g } => Some((*f, *g)),
            Command::Ask(_) => None,
        },
        Entry::Published { .. } => None,
    }
}

// Sets the flag of the pair that the entry names.
fn touch(case: &Case, flags: &mut Vec<bool>, entry: &Entry)
    requires pairs { ArePairs case.now.pairs }
    requires wide { length flags.old.items ≡ length case.now.pairs }
    ensures { IsTouchedBy case.now.pairs entry.now flags.old.items flags.new.items }
{
    let Some((f, g)) = faces_named(entry) else {
        return;
    };
    if let Some(n) = case.pairs.number(f, g) {
        flags[n as usize] = true;
    }
}

fn unset(alloc: Global, pairs: usize) -> Result<Vec<bool>, NoMemory>
    ensures { IfOk result (λ flags. flags.items ≡ replicate pairs false) }
{
    let mut flags = Vec::with_capacity(alloc, pairs)?;
    for _n in 0..pairs {
        flags.push_reserved(false);
    }
    Ok(flags)
}

// For each pair whether some entry pins or unpins it.
fn touched(alloc: Global, case: &Case, journal: &[Entry]) -> Result<Vec<bool>, NoMemory>
    ensures { IfOk result (λ flags. AreTouched case.now.pairs journal.now flags.items) }
{
    let mut flags = unset(alloc, case.pairs.count())?;
    for i in 0..journal.len() {
        touch(case, &mut flags, &journal[i]);
    }
    Ok(flags)
}

// The given of the order on the variable, where it is in force.
fn add_given(
    list: &mut Items<Given>,
    var: u32,
    value: Order,
    in_force: bool,
) -> Result<(), NoMemory>
    ensures { OnOk result (list.new ≡ list.old ++ given_if var value in_force) }
{
    if !in_force {
        return Ok(());
    }
    list.push(Given {
        var,
        value,
        by: GivenBy::Pin,
    })
}

// The givens of the orders in force on a pair, Below before Above.
fn add_givens(
    list: &mut Items<Given>,
    journal: &[Entry],
    var: u32,
    pair: (u32, u32),
) -> Result<(), NoMemory>
    ensures { OnOk result (list.new ≡ list.old ++ givens_on var (in_force_after (changes journal.now) pair)) }
{
    let below = is_in_force(journal, pair, Order::Below);
    add_given(list, var, Order::Below, below)?;
    let above = is_in_force(journal, pair, Order::Above);
    add_given(list, var, Order::Above, above)?;
    Ok(())
}

// The same where the pair is named by some entry; else none is in force.
fn add_touched(
    list: &mut Items<Given>,
    case: &Case,
    journal: &[Entry],
    flags: &[bool],
    var: u32,
) -> Result<(), NoMemory>
    requires pairs { ArePairs case.now.pairs }
    requires touched { AreTouched case.now.pairs journal.now flags.now }
    requires var { var < length case.now.pairs }
    ensures { OnOk result (list.new ≡ list.old ++ givens_on var (in_force_after (changes journal.now) (pair_at case.now.pairs var))) }
{
    if !flags[var as usize] {
        return Ok(());
    }
    let pair = case.pairs.faces(var);
    add_givens(list, journal, var, pair)?;
    Ok(())
}

/// The givens of the last epoch begun. It goes over the entries once, over the pairs once, and for each pair that an entry names
/// over the entries as often as they name it.
pub(crate) fn givens_now(
    alloc: Global,
    case: &Case,
    journal: &[Entry],
) -> Result<Items<Given>, NoMemory>
    ensures { IfOk result (λ list. list ≡ epoch_givens case.now journal.now (last_begun journal.now)) }
{
    let flags = touched(alloc, case, journal)?;
    let mut list = case.starts.copy(alloc)?;
    for n in 0..case.pairs.count() as u32 {
        add_touched(&mut list, case, journal, flags.as_slice(), n)?;
    }
    Ok(list)
}

// How many entries there are up to the change that begins the epoch, and none where it hasn't begun.
fn front(journal: &[Entry], epoch: u32) -> usize
    ensures within { result ≤ length journal.now }
    ensures changes { epoch ≤ last_begun journal.now → changes (take result journal.now) ≡ take epoch (changes journal.now) }
{
    let mut left = epoch;
    for i in 0..journal.len() {
        if left == 0 {
            return i;
        }
        if is_change(&journal[i]) {
            left -= 1;
        }
    }
    journal.len()
}

/// The givens of an epoch that has begun.
pub fn givens_of(
    alloc: Global,
    case: &Case,
    journal: &Items<Entry>,
    epoch: u32,
) -> Result<Items<Given>, NoMemory>
    requires begun { epoch ≤ last_begun journal.now }
    ensures { IfOk result (λ list. list ≡ epoch_givens case.now journal.now epoch) }
{
    let entries = journal.as_slice();
    let end = front(entries, epoch);
    let list = givens_now(alloc, case, &entries[..end])?;
    Ok(list)
}
