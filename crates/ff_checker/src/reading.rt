//! What holds of the terms of a constraint, and what that forces.
ghost use Rattle.std.specs.Prelude.{◌≡◌, ◌<◌, ◌↔◌, length, IsTrue, true, Some};
ghost use Rattle.ff_tables.specs.Orders.{turn};
ghost use Rattle.ff_tables.specs.Rows.{arity};
ghost use Rattle.ff_tables.specs.Forces.{NoneAgrees, Knows};
ghost use Rattle.ff_log.specs.Logs.{ForcesClaim, IsDead, claim as claim_of, claim_at};
ghost use Rattle.ff_checker.specs.LogStates.{IsHeld};
ghost use Rattle.ff_checker.specs.Readings.{AreRead, Only, plain_terms, known_in};

use crate::held::Held;
use arrayvec::ArrayVec;
use ff_log::{Claim, Declared};
use ff_tables::{Constraint, Forced, Kind, Known, Order, Term, Terms, forced, terms_of};

/// The values that are known of a constraint's terms, by place.
#[derive(Clone, Copy)]
pub(crate) struct Values {
    pub(crate) list: [Option<Order>; 6],
}

impl Known for Values {
    ghost count = { λ s. 6 };

    ghost known = { λ s j. known_in s.list j };

    #[inline]
    fn value(&self, var: u32) -> Option<Order> {
        self.list[var as usize]
    }
}

/// The values that are known, and whether both values hold of some term.
#[derive(Clone, Copy)]
pub(crate) struct Reading {
    pub(crate) values: Values,
    pub(crate) both: bool,
}

fn value_of(above: bool, below: bool) -> Option<Order>
    ensures { result ≡ Rattle.ff_checker.specs.Readings.value_of above below }
{
    match (above, below) {
        (true, false) => Some(Order::Above),
        (false, true) => Some(Order::Below),
        _ => None,
    }
}

/// Reads what holds of each term.
pub(crate) fn read(held: &Held, declared: &Declared) -> Reading
    requires held { IsHeld held.now }
    ensures { AreRead declared.now held.now.list.items (length declared.now.terms) result.values.list result.both }
{
    let mut list = [None; 6];
    let mut both = false;
    let terms = declared.terms.as_slice();
    for j in 0..terms.len() {
        let (p, q) = terms[j];
        let above = held.has(Claim { upper: p, lower: q });
        let below = held.has(Claim { upper: q, lower: p });
        list[j] = value_of(above, below);
        both = both | (above & below);
    }
    Reading {
        values: Values { list },
        both,
    }
}

// A constraint of the kind whose terms are variables of their own.
fn plain(kind: Kind) -> Constraint
    ensures kind { result.kind ≡ kind }
    ensures terms { result.terms ≡ plain_terms kind }
{
    let mut terms: ArrayVec<Term, 6> = ArrayVec::new();
    for var in 0..terms_of(kind) as u32 {
        terms.push(Term {
            var,
            flipped: false,
        });
    }
    Constraint {
        kind,
        terms: Terms::of(terms),
    }
}

// Whether no row of the kind has these values.
fn none_agrees(kind: Kind, values: &Values) -> bool
    ensures { IsTrue result ↔ NoneAgrees kind (plain_terms kind) (Knows (known_in values.now.list)) }
{
    match forced(&plain(kind), values) {
        Forced::Dead => true,
        Forced::Value { .. } | Forced::Nothing => false,
    }
}

/// Whether no row of the constraint agrees with what holds.
pub(crate) fn is_dead(held: &Held, declared: &Declared) -> bool
    requires held { IsHeld held.now }
    requires terms { length declared.now.terms ≡ arity declared.now.kind }
    ensures { IsTrue result ↔ IsDead declared.now held.now.list.items }
{
    let reading = read(held, declared);
    reading.both || none_agrees(declared.kind, &reading.values)
}

fn opposite(value: Order) -> Order
    ensures { result ≡ turn true value }
{
    match value {
        Order::Below => Order::Above,
        Order::Above => Order::Below,
    }
}

fn is_known(known: Option<Order>, value: Order) -> bool
    ensures { IsTrue result ↔ (known ≡ Some value) }
{
    match (known, value) {
        (Some(Order::Below), Order::Below) | (Some(Order::Above), Order::Above) => true,
        _ => false,
    }
}

// Whether each row that agrees has the value at the place.
fn only(reading: &Reading, declared: &Declared, held: &Held, j: usize, value: Order) -> bool
    requires read { AreRead declared.now held.now.list.items (length declared.now.terms) reading.now.values.list reading.now.both }
    requires terms { length declared.now.terms ≡ arity declared.now.kind }
    requires within { j < length declared.now.terms }
    ensures { IsTrue result ↔ Only declared.now held.now.list.items j value }
{
    let _ = held.list.len();
    if reading.both {
        return true;
    }
    if is_known(reading.values.list[j], value) {
        return true;
    }
    let mut other = reading.values;
    other.list[j] = Some(opposite(value));
    none_agrees(declared.kind, &other)
}

/// That p stands to q so.
pub(crate) fn claimed(p: u32, q: u32, value: Order) -> Claim
    ensures { result ≡ claim_of p q value }
{
    match value {
        Order::Above => Claim { upper: p, lower: q },
        Order::Below => Claim { upper: q, lower: p },
    }
}

fn is_same(a: Claim, b: Claim) -> bool
    ensures { IsTrue result ↔ (a ≡ b) }
{
    a.upper == b.upper && a.lower == b.lower
}

// Whether the claim gives the term at the place the value, and each row that agrees has it.
fn gives(
    reading: &Reading,
    declared: &Declared,
    held: &Held,
    j: usize,
    claim: Claim,
    value: Order,
) -> bool
    requires read { AreRead declared.now held.now.list.items (length declared.now.terms) reading.now.values.list reading.now.both }
    requires terms { length declared.now.terms ≡ arity declared.now.kind }
    requires within { j < length declared.now.terms }
    ensures { IsTrue result ↔ ((claim_at declared.now j value ≡ claim) × Only declared.now held.now.list.items j value) }
{
    let (p, q) = declared.terms.as_slice()[j];
    is_same(claimed(p, q, value), claim) && only(reading, declared, held, j, value)
}

/// Whether the constraint forces the claim from what holds.
pub(crate) fn forces(held: &Held, declared: &Declared, claim: Claim) -> bool
    requires held { IsHeld held.now }
    requires terms { length declared.now.terms ≡ arity declared.now.kind }
    ensures { IsTrue result ↔ ForcesClaim declared.now held.now.list.items claim }
{
    let reading = read(held, declared);
    for j in 0..declared.terms.as_slice().len() {
        if gives(&reading, declared, held, j, claim, Order::Above) {
            return true;
        }
        if gives(&reading, declared, held, j, claim, Order::Below) {
            return true;
        }
    }
    false
}
