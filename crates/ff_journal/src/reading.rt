//! What a journal tells.
ghost use Rattle.std.specs.Prelude.{◌≡◌, ◌+◌, ◌<◌, ◌≤◌, ◌^◌, length, is_some};
ghost use Rattle.ff_tables.specs.Orders.{turn};
ghost use Rattle.ff_types.specs.Pairs.{in_order as pair_in_order};
ghost use Rattle.ff_journal.specs.Epochs.{begins as says_epoch, is_change as entry_is_change, is_pair as same_pair, pinned_by as entry_pins, changes, held_by, has_order as is_held_order, is_in_force as in_force, last_begun};
ghost use Rattle.ff_journal.specs.Journals.{command_by, commands_of};
ghost use Rattle.ff_journal.specs.Reading.{one_if as number_of, next_held, changer, is_changer_holding};

use crate::Entry;
use ff_tables::Order;
use ff_viewer::{Command, Reply};

fn begins(told: &Reply) -> bool
    ensures { result ≡ says_epoch told.now }
{
    match told {
        Reply::Epoch(_) => true,
        _ => false,
    }
}

pub(crate) fn is_change(entry: &Entry) -> bool
    ensures { result ≡ entry_is_change entry.now }
{
    match entry {
        Entry::Said { command, reply, .. } => match command {
            Command::Pin { .. } => begins(reply),
            Command::Unpin { .. } => begins(reply),
            Command::Ask(_) => false,
        },
        Entry::Published { .. } => false,
    }
}

pub(crate) fn one_if(yes: bool) -> u32
    ensures { result ≡ number_of yes }
{
    if yes { 1 } else { 0 }
}

/// The number of the last epoch begun.
pub fn begun(journal: &[Entry]) -> u32
    requires few { length journal.now < 2 ^ 32 }
    ensures value { result ≡ last_begun journal.now }
    ensures few { result ≤ length journal.now }
{
    let mut count = 0;
    for i in 0..journal.len() {
        count += one_if(is_change(&journal[i]));
    }
    count
}

fn is_by(entry: &Entry, viewer: u32) -> bool
    ensures { result ≡ is_some (command_by viewer entry.now) }
{
    match entry {
        Entry::Said { viewer: v, .. } => *v == viewer,
        Entry::Published { .. } => false,
    }
}

/// How many entries the viewer has.
pub fn entries_of(journal: &[Entry], viewer: u32) -> u32
    requires few { length journal.now < 2 ^ 32 }
    ensures { result ≡ length (commands_of viewer journal.now) }
{
    let mut count = 0;
    for i in 0..journal.len() {
        count += one_if(is_by(&journal[i], viewer));
    }
    count
}

pub(crate) fn in_order(f: u32, g: u32) -> (u32, u32)
    ensures { result ≡ pair_in_order f g }
{
    if f < g { (f, g) } else { (g, f) }
}

pub(crate) fn turned(flipped: bool, value: Order) -> Order
    ensures { result ≡ turn flipped value }
{
    match value {
        Order::Below => { if flipped { Order::Above } else { Order::Below } }
        Order::Above => { if flipped { Order::Below } else { Order::Above } }
    }
}

fn is_pair(p: (u32, u32), q: (u32, u32)) -> bool
    ensures { result ≡ same_pair p q }
{
    p.0 == q.0 && p.1 == q.1
}

// What the entry says of the pair, where it is the viewer's: a pinned order of its first face to its second, or that it is
// unpinned.
fn pinned_by(entry: &Entry, viewer: u32, pair: (u32, u32)) -> Option<Option<Order>>
    ensures { result ≡ entry_pins viewer pair entry.now }
{
    match entry {
        Entry::Said {
            viewer: v,
            command,
            ..
        } => match command {
            Command::Pin { f, g, value } => {
                if *v == viewer && is_pair(pair, in_order(*f, *g)) {
                    Some(Some(turned(*g < *f, *value)))
                } else {
                    None
                }
            }
            Command::Unpin { f, g } => {
                if *v == viewer && is_pair(pair, in_order(*f, *g)) {
                    Some(None)
                } else {
                    None
                }
            }
            Command::Ask(_) => None,
        },
        Entry::Published { .. } => None,
    }
}

fn held_next(viewer: u32, pair: (u32, u32), entry: &Entry, held: Option<Order>) -> Option<Order>
    ensures { result ≡ next_held viewer pair entry.now held }
{
    if !is_change(entry) {
        return held;
    }
    match pinned_by(entry, viewer, pair) {
        Some(pinned) => pinned,
        None => held,
    }
}

/// The order that the viewer holds on the pair: that of its last change on it, where it is a pin.
pub(crate) fn held(journal: &[Entry], viewer: u32, pair: (u32, u32)) -> Option<Order>
    ensures { result ≡ held_by viewer (changes journal.now) pair }
{
    let mut held = None;
    for i in 0..journal.len() {
        held = held_next(viewer, pair, &journal[i], held);
    }
    held
}

// The viewer of a change.
fn changed_by(entry: &Entry) -> Option<u32>
    ensures { result ≡ changer entry.now }
{
    if !is_change(entry) {
        return None;
    }
    match entry {
        Entry::Said { viewer, .. } => Some(*viewer),
        Entry::Published { .. } => None,
    }
}

fn has_order(value: Order, held: Option<Order>) -> bool
    ensures { result ≡ is_held_order value held }
{
    match held {
        Some(held) => held == value,
        None => false,
    }
}

// Whether the entry is a change of a viewer that holds the order on the pair.
fn is_holders(journal: &[Entry], entry: &Entry, pair: (u32, u32), value: Order) -> bool
    ensures { result ≡ is_changer_holding (changes journal.now) entry.now pair value }
{
    match changed_by(entry) {
        Some(viewer) => has_order(value, held(journal, viewer, pair)),
        None => false,
    }
}

/// Whether at least one viewer holds the order on the pair.
pub(crate) fn is_in_force(journal: &[Entry], pair: (u32, u32), value: Order) -> bool
    ensures { result ≡ in_force (changes journal.now) pair value }
{
    for i in 0..journal.len() {
        if is_holders(journal, &journal[i], pair, value) {
            return true;
        }
    }
    false
}
