//! Replies to pins and unpins.
ghost use Rattle.std.specs.Prelude.{◌≡◌, ℕ, ◌+◌, ◌-◌, ◌<◌, ◌^◌, length, nat_lt};
ghost use Rattle.ff_tables.specs.Orders.{turned_option};
ghost use Rattle.ff_types.specs.Pairs.{number_of};
ghost use Rattle.ff_journal.specs.Epochs.{last_begun};
ghost use Rattle.ff_journal.specs.declared.entries.Outcome.{Outcome as OutcomeSpec};
ghost use Rattle.ff_viewer.specs.declared.commands.Command.TheVariants.{Pin, Unpin};
ghost use Rattle.ff_journal.specs.Publications.{IsLast};
ghost use Rattle.ff_journal.specs.Journals.{IsSaid, commands_of};
ghost use Rattle.ff_journal.specs.Replies.{seen_from, held_for as order_held, pin_reply, unpin_reply};

use crate::Entry;
use crate::reading::{begun, held, in_order, turned};
use ff_tables::{Items, Order};
use ff_types::Case;
use ff_viewer::Reply;

/// How f stands to g, by how the lesser face stands to the greater.
pub(crate) fn seen(f: u32, g: u32, value: Option<Order>) -> Option<Order>
    ensures { result ≡ seen_from f g value }
{
    match value {
        Some(value) => Some(turned(g < f, value)),
        None => None,
    }
}

fn held_for(journal: &[Entry], viewer: u32, f: u32, g: u32) -> Option<Order>
    ensures { result ≡ order_held viewer journal.now f g }
{
    seen(f, g, held(journal, viewer, in_order(f, g)))
}

/// The reply to a pin.
pub(crate) fn pin_told(case: &Case, journal: &[Entry], viewer: u32, f: u32, g: u32) -> Reply
    requires few { length journal.now < 2 ^ 32 - 1 }
    ensures { result ≡ pin_reply (last_begun journal.now + 1) (number_of case.now.pairs f g) (order_held viewer journal.now f g) }
{
    match case.pairs.number(f, g) {
        None => Reply::NoPair,
        Some(_) => match held_for(journal, viewer, f, g) {
            Some(value) => Reply::Held(value),
            None => Reply::Epoch(begun(journal) + 1),
        },
    }
}

/// The reply to an unpin.
pub(crate) fn unpin_told(case: &Case, journal: &[Entry], viewer: u32, f: u32, g: u32) -> Reply
    requires few { length journal.now < 2 ^ 32 - 1 }
    ensures { result ≡ unpin_reply (last_begun journal.now + 1) (number_of case.now.pairs f g) (order_held viewer journal.now f g) }
{
    match case.pairs.number(f, g) {
        None => Reply::NoPair,
        Some(_) => match held_for(journal, viewer, f, g) {
            Some(_) => Reply::Epoch(begun(journal) + 1),
            None => Reply::NotHeld,
        },
    }
}

/// The reply to a pin, right for any budget.
pub(crate) fn reply_to_pin(
    case: &Case,
    journal: &Items<Entry>,
    viewer: u32,
    f: u32,
    g: u32,
    value: Order,
) -> Reply
    requires few { length journal.now < 2 ^ 32 - 1 }
    requires published { (e : ℕ) × (last : OutcomeSpec) × IsLast journal.now e last }
    ensures { (budget : ℕ) → IsSaid case.now budget journal.now viewer (length (commands_of viewer journal.now)) (Pin f g value) result }
{
    let _ = value;
    pin_told(case, journal.as_slice(), viewer, f, g)
}

/// The reply to an unpin, right for any budget.
pub(crate) fn reply_to_unpin(
    case: &Case,
    journal: &Items<Entry>,
    viewer: u32,
    f: u32,
    g: u32,
) -> Reply
    requires few { length journal.now < 2 ^ 32 - 1 }
    requires published { (e : ℕ) × (last : OutcomeSpec) × IsLast journal.now e last }
    ensures { (budget : ℕ) → IsSaid case.now budget journal.now viewer (length (commands_of viewer journal.now)) (Unpin f g) result }
{
    unpin_told(case, journal.as_slice(), viewer, f, g)
}
