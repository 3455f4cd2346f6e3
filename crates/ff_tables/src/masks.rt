//! The rows of each kind as sets of bits, the first row lowest.
ghost use Rattle.std.specs.Prelude.{◌≡◌, ◌<◌, ◌≤◌, ◌&&◌, Bool, List, map, true};
ghost use Rattle.ff_tables.specs.declared.orders.Order.{Order as OrderSpec};
ghost use Rattle.ff_tables.specs.Orders.{turned_option, row_at, fits};
ghost use Rattle.ff_tables.specs.Rows.{rows_of, arity};
ghost use Rattle.ff_tables.specs.Masks.{base, side_of, mask_of, bits, OpenIs, OnlyIs};

use crate::orders::{Order, turned};
use crate::terms::Kind;

// For each term the rows that have Below there, and those that have Above: of taco-taco, transitivity, and
// the equal rows.
static MASKS: [u16; 22] = [
    255, 65280, 1823, 63712, 2863, 62672, 14099, 51436, 15139, 50396, 22885, 42650, //
    7, 56, 11, 52, 25, 38, //
    1, 2, 1, 2,
];

/// Where the masks of the kind begin.
#[inline(always)]
pub(crate) fn first_mask(kind: Kind) -> usize
    ensures { result ≡ base kind }
{
    match kind {
        Kind::TacoTaco => 0,
        Kind::Transitivity => 12,
        Kind::TacoTortilla => 18,
        Kind::TortillaTortilla => 18,
    }
}

/// The set of all rows.
#[inline(always)]
pub(crate) fn all_rows(kind: Kind) -> u16
    ensures { result ≡ bits (map (λ row. true) (rows_of kind)) }
{
    match kind {
        Kind::TacoTaco => 65535,
        Kind::Transitivity => 63,
        Kind::TacoTortilla => 3,
        Kind::TortillaTortilla => 3,
    }
}

#[inline(always)]
fn side(value: Order) -> usize
    ensures is { result ≡ side_of value }
    ensures within { result ≤ 1 }
{
    match value {
        Order::Below => 0,
        Order::Above => 1,
    }
}

// The rows that have the value at the term j.
#[inline(always)]
fn mask(kind: Kind, first: usize, j: usize, value: Order) -> u16
    requires first { first ≡ base kind }
    requires j { j < arity kind }
    ensures { result ≡ mask_of kind j value }
{
    let _ = kind;
    MASKS[first + 2 * j + side(value)]
}

/// The rows of the set that fit what is known of the term j.
#[inline(always)]
pub(crate) fn narrowed(
    kind: Kind,
    first: usize,
    j: usize,
    flipped: bool,
    value: Option<Order>,
    rows: u16,
) -> u16
    requires first { first ≡ base kind }
    requires j { j < arity kind }
    ensures { (g : List OrderSpec → Bool) → rows ≡ bits (map g (rows_of kind)) →
        result ≡ bits (map (λ row. g row && fits (turned_option flipped value) (row_at row j)) (rows_of kind)) }
{
    match value {
        None => rows,
        Some(s) => rows & mask(kind, first, j, turned(flipped, s)),
    }
}

// The one value that the rows of the set have at the term j.
#[inline(always)]
fn only_value(kind: Kind, first: usize, j: usize, rows: u16) -> Option<Order>
    requires first { first ≡ base kind }
    requires j { j < arity kind }
    ensures { (g : List OrderSpec → Bool) → rows ≡ bits (map g (rows_of kind)) → OnlyIs kind g j result }
{
    if rows & mask(kind, first, j, Order::Above) == 0 {
        return Some(Order::Below);
    }
    if rows & mask(kind, first, j, Order::Below) == 0 {
        return Some(Order::Above);
    }
    None
}

/// The one value that the rows of the set have at the term j, where nothing is known of it.
#[inline(always)]
pub(crate) fn open_value(
    kind: Kind,
    first: usize,
    j: usize,
    known: Option<Order>,
    rows: u16,
) -> Option<Order>
    requires first { first ≡ base kind }
    requires j { j < arity kind }
    ensures { (g : List OrderSpec → Bool) → rows ≡ bits (map g (rows_of kind)) → OpenIs kind g j known result }
{
    match known {
        Some(_) => None,
        None => only_value(kind, first, j, rows),
    }
}
