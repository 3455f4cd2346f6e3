//! Facts with their marks, and the words that keep them. A word has, from the lowest place on, a digit that says that
//! it keeps a fact (2), the value (2), the kind of the reason (2), the marks (64), the reason's number (2^22) and the
//! level (2^30); the word 0 keeps none.
ghost use Rattle.std.specs.Prelude.{◌≡◌, ◌<◌, ◌==◌, Some};
ghost use Rattle.ff_propagate.specs.Words.{held_of, order_of, reason_of, IsPackable};

use crate::facts::{Fact, Reason};
use ff_tables::Order;

/// What the place of the value counts.
const VALUE_AT: u64 = 2;
/// What the place of the kind of reason counts.
const KIND_AT: u64 = 4;
/// What the place of the marks counts, and how many sets of marks there are.
const MARKS_AT: u64 = 8;

const MARK_SETS: u64 = 64;
/// What the place of the reason's number counts, and how many numbers there are.
const NUMBER_AT: u64 = 512;

const NUMBERS: u64 = 4_194_304;
/// What the place of the level counts, and how many levels there are.
const LEVEL_AT: u64 = 2_147_483_648;

const LEVELS: u64 = 1_073_741_824;

/// A fact with a mark for each term of its reason's constraint on which it rests: bit j of `marks` for the j-th term.
#[derive(Clone, Copy)]
pub struct Held {
    pub fact: Fact,
    pub marks: u8,
}

fn order_in(bit: bool) -> Order
    ensures { result ≡ order_of bit }
{
    if bit { Order::Above } else { Order::Below }
}

fn reason_in(bit: bool, number: u32) -> Reason
    ensures { result ≡ reason_of bit number }
{
    if bit {
        Reason::Forced(number)
    } else {
        Reason::Given(number)
    }
}

/// The fact that a word keeps.
pub fn read_word(word: u64) -> Option<Held>
    ensures { result ≡ held_of word }
{
    if word == 0 {
        return None;
    }
    let value = order_in((word / VALUE_AT) % 2 == 1);
    let number = ((word / NUMBER_AT) % NUMBERS) as u32;
    let reason = reason_in((word / KIND_AT) % 2 == 1, number);
    Some(Held {
        fact: Fact {
            value,
            level: ((word / LEVEL_AT) % LEVELS) as u32,
            reason,
        },
        marks: ((word / MARKS_AT) % MARK_SETS) as u8,
    })
}

fn bit_of(value: Order) -> u64
    ensures is { order_of (result == 1) ≡ value }
    ensures few { result < 2 }
{
    match value {
        Order::Below => 0,
        Order::Above => 1,
    }
}

fn numbered(reason: Reason) -> (u64, u32)
    ensures is { reason_of (result.0 == 1) result.1 ≡ reason }
    ensures few { result.0 < 2 }
{
    match reason {
        Reason::Given(i) => (0, i),
        Reason::Forced(c) => (1, c),
    }
}

/// A word that keeps this fact: at most 64 sets of marks, 2^22 numbers and 2^30 levels have room in it.
pub fn write_word(held: Held) -> u64
    requires { IsPackable held }
    ensures { held_of result ≡ Some held }
{
    let value = bit_of(held.fact.value);
    let (kind, number) = numbered(held.fact.reason);
    1 + VALUE_AT * value
        + KIND_AT * kind
        + MARKS_AT * u64::from(held.marks)
        + NUMBER_AT * u64::from(number)
        + LEVEL_AT * u64::from(held.fact.level)
}
