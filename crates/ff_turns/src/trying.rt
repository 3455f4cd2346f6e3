//! The trials, and what they came to.
use crate::opening::{BUDGET, corners, opened};
use crate::turning;
use ff_tables::NoMemory;
use ff_trials::{Turns, strip, tried};
use ff_types::Case;
use std::alloc::Global;
use std::sync::Wait;

// The same page before and after a pin beside its part.
fn paged<R: Wait>(rt: &R, alloc: Global, case: Case) -> Result<(u64, u64), NoMemory> {
    match opened(alloc, case)? {
        Some((bench, mut pass, _worker)) => turning::kept(&bench, rt, alloc, &mut pass),
        None => Ok((0, 0)),
    }
}

/// The turns of all searches after the first page of a part, and after the same page of the next epoch, which pins the pair of the
/// other part: the pages are kept, so nothing is searched again.
pub fn kept<R: Wait>(rt: &R, alloc: Global) -> Result<String, NoMemory> {
    let (before, after) = match corners(alloc)? {
        Some(case) => paged(rt, alloc, case)?,
        None => (0, 0),
    };
    Ok(format!(in alloc; "{before} turns, {after} after a pin beside the part")?)
}

// A page, and then all of its part.
fn worked<R: Wait>(rt: &R, alloc: Global, case: Case) -> Result<(u64, u64, bool), NoMemory> {
    match opened(alloc, case)? {
        Some((bench, mut pass, mut worker)) => {
            turning::searched(&bench, rt, alloc, &mut pass, &mut worker)
        }
        None => Ok((0, 0, false)),
    }
}

// Whether a search of the one part alone takes as many turns to its end.
fn is_whole(alloc: Global, case: &Case, turns: u64) -> Result<bool, NoMemory> {
    let told = tried(alloc, case, &[], Turns::Budget(BUDGET))?;
    let end = format!(in alloc; "finished used {turns}\n")?;
    Ok(told.as_str().ends_with(end.as_str()))
}

/// The turns of all searches after the first page of a strip of seven panels, and once its worker has nothing to do; and whether a search
/// of that part alone takes as many to its end.
pub fn searched<R: Wait>(rt: &R, alloc: Global) -> Result<String, NoMemory> {
    let (before, after, is_idle) = match strip(alloc, 7)? {
        Some(case) => worked(rt, alloc, case)?,
        None => (0, 0, false),
    };
    let is_whole = match strip(alloc, 7)? {
        Some(case) => is_whole(alloc, &case, after)?,
        None => false,
    };
    Ok(format!(in alloc;
        "{before} turns, {after} when idle ({is_idle}), as a search alone ({is_whole})"
    )?)
}
