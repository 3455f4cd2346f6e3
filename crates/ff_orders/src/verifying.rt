//! The verdict on given orders.
ghost use Rattle.std.specs.Prelude.{◌≡◌, ◌<◌, ◌↔◌, length, slice_get, IfOk, IsTrue, MatchOption, Some};
ghost use Rattle.ff_tables.specs.Systems.{AreFit, IsFit};
ghost use Rattle.ff_types.specs.CaseFields.{edge_of as crease_edge, start_at as given_at};
ghost use Rattle.ff_orders.specs.Verdicts.{IsFirst, IsOrderVerdict, Never};
ghost use Rattle.ff_orders.specs.Noted.{AreWithin, BothAt, BrokenAt, DeadAt, IsDeadBy, IsNotedVerdict, NoneAt, is_both as both_in, is_none as none_in, order_of as order_in, said_at, value_of, verdict_by};

use crate::items::{OrderItem, OrderVerdict};
use crate::said::{Said, said_pairs};
use ff_tables::{
    Constraint, Forced, Given, GivenBy, Items, Known, NoMemory, Order, System, forced,
};
use ff_types::{Case, Cite, Folded, Pairs};
use std::alloc::Global;

fn is_both(said: Said) -> bool
    ensures { result ≡ both_in said }
{
    said.lesser && said.greater
}

fn is_none(said: Said) -> bool
    ensures { result ≡ none_in said }
{
    !said.lesser && !said.greater
}

// The order of the lesser face to the greater one, where one is said.
fn order_of(said: Said) -> Order
    ensures { result ≡ order_in said }
{
    if said.lesser {
        Order::Above
    } else {
        Order::Below
    }
}

// The first pair with both orders.
fn first_both(said: &[Said]) -> Option<usize>
    ensures { MatchOption result (Never (BothAt said.now)) (IsFirst (BothAt said.now)) }
{
    for n in 0..said.len() {
        if is_both(said[n]) {
            return Some(n);
        }
    }
    None
}

// The first pair with none.
fn first_none(said: &[Said]) -> Option<usize>
    ensures { MatchOption result (Never (NoneAt said.now)) (IsFirst (NoneAt said.now)) }
{
    for n in 0..said.len() {
        if is_none(said[n]) {
            return Some(n);
        }
    }
    None
}

fn is_order(a: Order, b: Order) -> bool
    ensures { IsTrue result ↔ (a ≡ b) }
{
    a == b
}

// The first start with another order than is said.
fn first_broken(said: &[Said], starts: &[Given]) -> Option<usize>
    requires within { AreWithin starts.now (length said.now) }
    ensures { MatchOption result (Never (BrokenAt said.now starts.now)) (IsFirst (BrokenAt said.now starts.now)) }
{
    for i in 0..starts.len() {
        let start = starts[i];
        let value = order_of(said[start.var as usize]);
        if !is_order(value, start.value) {
            return Some(i);
        }
    }
    None
}

// The orders that are said, as known values of the pairs' variables.
#[derive(Drop)]
struct Values<'a> {
    said: &'a [Said],
}

impl Known for Values<'_> {
    ghost use Rattle.std.specs.Prelude.{length, Some};
    ghost use Rattle.ff_orders.specs.Noted.{value_of};

    ghost count = { λ s. length s.said.now };

    ghost known = { λ s v. Some (value_of s.said.now v) };

    fn value(&self, var: u32) -> Option<Order> {
        Some(order_of(self.said[var as usize]))
    }
}

// Whether no row of the constraint has the orders that are said.
fn is_dead(said: &[Said], con: &Constraint) -> bool
    requires { IsFit (length said.now) con.now }
    ensures { IsTrue result ↔ IsDeadBy said.now con.now }
{
    let values = Values { said };
    match forced(con, &values) {
        Forced::Dead => true,
        Forced::Value { .. } => false,
        Forced::Nothing => false,
    }
}

// The first constraint none of whose rows has the orders that are said.
fn first_dead(said: &[Said], constraints: &[Constraint]) -> Option<usize>
    requires { AreFit (length said.now) constraints.now }
    ensures { MatchOption result (Never (DeadAt said.now constraints.now)) (IsFirst (DeadAt said.now constraints.now)) }
{
    for c in 0..constraints.len() {
        if is_dead(said, &constraints[c]) {
            return Some(c);
        }
    }
    None
}

fn edge_of(by: GivenBy) -> u32
    ensures { result ≡ crease_edge by }
{
    match by {
        GivenBy::Crease(e) => e,
        GivenBy::Pin => 0,
    }
}

// The verdict where the first constraint without a row has this cite.
fn unmet(cite: Cite) -> OrderVerdict
    ensures { result ≡ verdict_by cite }
{
    match cite {
        Cite::Transitivity { f, g, h, .. } => OrderVerdict::Cycle { f, g, h },
        _ => OrderVerdict::Crossing(cite),
    }
}

// The two faces of the pair with this number.
fn faces_at(pairs: &Pairs, n: usize) -> (u32, u32)
    requires { n < length pairs.now }
    ensures { slice_get pairs.now n ≡ Some result }
{
    // There are so few that 32 bits number them.
    let _ = pairs.count();
    pairs.faces(n as u32)
}

// The start with this number.
fn start_at(starts: &[Given], i: usize) -> Given
    requires { i < length starts.now }
    ensures { result ≡ given_at starts.now i }
{
    starts[i]
}

// The cite of the constraint with this number.
fn cite_at(cites: &[Cite], c: usize) -> Cite
    requires { c < length cites.now }
    ensures { slice_get cites.now c ≡ Some result }
{
    cites[c]
}

// The verdict on the orders that are said.
fn verdict_of(case: &Case, said: &[Said]) -> OrderVerdict
    requires { length said.now ≡ length case.now.pairs }
    ensures { IsNotedVerdict case.now said.now result }
{
    if let Some(n) = first_both(said) {
        let (f, g) = faces_at(&case.pairs, n);
        return OrderVerdict::Contradiction { f, g };
    }
    if let Some(n) = first_none(said) {
        let (f, g) = faces_at(&case.pairs, n);
        return OrderVerdict::Missing { f, g };
    }
    if let Some(i) = first_broken(said, case.starts.as_slice()) {
        return OrderVerdict::Mark {
            e: edge_of(start_at(case.starts.as_slice(), i).by),
        };
    }
    match first_dead(said, case.system.constraints.as_slice()) {
        Some(c) => unmet(cite_at(case.cites.as_slice(), c)),
        None => OrderVerdict::Verified,
    }
}

/// The verdict on given orders of the faces of a folded pattern: the first thing that is wrong with them. It is the first pair
/// by number on which both orders are said; else the first on which none is; else the least edge marked M or V that isn't
/// kept; else the first constraint that has none of its rows. Takes a step for each item, logarithmic in the number of pairs, one for
/// each pair, crease and constraint, and two bytes for each pair.
pub fn verify(
    alloc: Global,
    folded: &Folded,
    case: &Case,
    items: &Items<OrderItem>,
) -> Result<OrderVerdict, NoMemory>
    ensures { IfOk result (IsOrderVerdict folded.now case.now items.now) }
{
    let said = said_pairs(alloc, &case.pairs, folded.up.as_slice(), items.as_slice())?;
    Ok(verdict_of(case, said.as_slice()))
}
