//! Which orders of each pair the items say.
ghost use Rattle.std.specs.Prelude.{◌≡◌, ◌+◌, ◌<◌, length, replicate, IfOk};
ghost use Rattle.ff_types.specs.Foldings.{is_up};
ghost use Rattle.ff_types.specs.Pairs.{ArePairs};
ghost use Rattle.ff_orders.specs.Said.{as_upper, said_by as said_in};
ghost use Rattle.ff_orders.specs.Noted.{AreNoted, no_order};

use crate::items::OrderItem;
use ff_tables::NoMemory;
use ff_types::Pairs;
use std::alloc::Global;

/// Which orders of a pair are said: the lesser face above the greater one, and the greater face above the lesser one.
#[derive(Clone, Copy, Debug, PartialEq, Eq)]
pub(crate) struct Said {
    pub(crate) lesser: bool,
    pub(crate) greater: bool,
}

// Whether the face lies with its first side up.
fn lies_up(up: &[bool], f: u32) -> bool
    ensures { result ≡ is_up up.now f }
{
    match up.get(f as usize) {
        Some(up) => *up,
        None => true,
    }
}

// The upper face and the lower one, where the item's first face is the upper one or isn't.
fn upper_first(first: bool, item: OrderItem) -> (u32, u32)
    ensures { result ≡ as_upper first item }
{
    if first {
        (item.f, item.g)
    } else {
        (item.g, item.f)
    }
}

// What the item says, the upper face first.
fn said_by(up: &[bool], item: OrderItem) -> Option<(u32, u32)>
    ensures { result ≡ said_in up.now item }
{
    if item.s == 1 {
        return Some(upper_first(lies_up(up, item.g), item));
    }
    if item.s == -1 {
        return Some(upper_first(!lies_up(up, item.g), item));
    }
    None
}

// Notes what the item at the place says, where it is of a pair.
fn note(pairs: &Pairs, up: &[bool], items: &[OrderItem], i: usize, said: &mut [Said])
    requires pairs { ArePairs pairs.now }
    requires within { i < length items.now }
    requires noted { AreNoted up.now pairs.now items.now i said.old }
    ensures { AreNoted up.now pairs.now items.now (i + 1) said.new }
{
    let Some((upper, lower)) = said_by(up, items[i]) else {
        return;
    };
    let Some(n) = pairs.number(upper, lower) else {
        return;
    };
    if upper < lower {
        said[n as usize].lesser = true;
    } else {
        said[n as usize].greater = true;
    }
}

// Nothing said of each pair.
fn none_said(alloc: Global, count: usize) -> Result<Vec<Said>, NoMemory>
    ensures { IfOk result (λ said. said.items ≡ replicate count no_order) }
{
    let said = vec![in alloc; Said {
        lesser: false,
        greater: false
    }; count]?;
    Ok(said)
}

/// For each pair which of its orders are said.
pub(crate) fn said_pairs(
    alloc: Global,
    pairs: &Pairs,
    up: &[bool],
    items: &[OrderItem],
) -> Result<Vec<Said>, NoMemory>
    ensures { IfOk result (λ said. AreNoted up.now pairs.now items.now (length items.now) said.items) }
{
    let mut said = none_said(alloc, pairs.count())?;
    for i in 0..items.len() {
        note(pairs, up, items, i, &mut said);
    }
    Ok(said)
}
