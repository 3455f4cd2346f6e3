//! Given orders that are to be come near to.
ghost use Rattle.std.specs.Prelude.{◌≡◌, ◌<◌, ◌^◌, length, false, replicate, slice_get, Some, None, IfOk, IfErr, MatchResult};
ghost use Rattle.ff_types.specs.Pairs.{number_of};
ghost use Rattle.ff_near.specs.Wishes.{AreWishes, WhyNotWanted, IsBad};
ghost use Rattle.ff_near.specs.Noting.{Notes, AreNoted};

use ff_tables::{Items, NoMemory};
use ff_types::{Case, No, Pin, Refusal};
use std::alloc::Global;

// No pair is noted.
fn unseen(alloc: Global, case: &Case) -> Result<Vec<bool>, NoMemory>
    ensures { IfOk result (λ seen. seen.items ≡ replicate (length case.now.pairs) false) }
{
    Ok(vec![in alloc; false; case.pairs.count()]?)
}

// Notes the pair of the item. Whether it is listed and wasn't noted before.
fn note(case: &Case, seen: &mut Vec<bool>, pin: Pin) -> bool
    requires wide { length seen.old.items ≡ length case.now.pairs }
    ensures wide { length seen.new.items ≡ length seen.old.items }
    ensures notes { Notes case.now.pairs pin seen.old.items result seen.new.items }
{
    match case.pairs.number(pin.f, pin.g) {
        Some(n) => {
            if seen[n as usize] {
                return false;
            }
            seen[n as usize] = true;
            true
        }
        None => false,
    }
}

/// The given orders, if each is of two faces that overlap and no two are of one pair; else the first that isn't so is refused.
pub fn wanted(alloc: Global, case: &Case, items: &Items<Pin>) -> Result<Items<Pin>, No>
    requires few { length items.now < 2 ^ 32 }
    ensures { MatchResult result (λ list. (list ≡ items.now) × AreWishes case.now.pairs items.now) (WhyNotWanted case.now.pairs items.now) }
{
    let mut seen = unseen(alloc, case)?;
    let list = items.as_slice();
    for i in 0..list.len() {
        if !note(case, &mut seen, list[i]) {
            return Err(No::Refused(Refusal::BadNear { item: i as u32 }));
        }
    }
    Ok(items.copy(alloc)?)
}
