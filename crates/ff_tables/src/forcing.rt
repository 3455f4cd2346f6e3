//! What a constraint forces.
ghost use Rattle.std.specs.Prelude.{◌≡◌, ℕ, ◌<◌, IsTrue, length, map, Some};
ghost use Rattle.ff_tables.specs.declared.orders.Order.{Order as OrderSpec};
ghost use Rattle.ff_tables.specs.Orders.{term_at};
ghost use Rattle.ff_tables.specs.declared.terms.Kind.TheVariants.{Transitivity};
ghost use Rattle.ff_tables.specs.Rows.{rows_of, arity, has_no_cycle};
ghost use Rattle.ff_tables.specs.Masks.{bits};
ghost use Rattle.ff_tables.specs.Forces.{agrees_below, AreKnown, ForcedIs, SettlesBelow};

use crate::known::{Forced, Known};
use crate::masks::{all_rows, first_mask, narrowed, open_value};
use crate::orders::{Order, turned};
use crate::terms::{Constraint, Kind, Term, terms_of};

// What one reading of the terms gives.
#[derive(Clone, Copy)]
struct Reading {
    // The rows that agree with what is known.
    rows: u16,
    // Whether each term is known.
    all_known: bool,
}

// Whether all were known before and this one is.
#[inline(always)]
fn still_known(all_known: bool, value: Option<Order>) -> bool
    ensures { IsTrue result → IsTrue all_known × ((s : OrderSpec) × (value ≡ Some s)) }
{
    match value {
        None => false,
        Some(_) => all_known,
    }
}

// Reads what is known of each term, once.
#[inline(always)]
fn read<K: Known>(kind: Kind, terms: &[Term], known: &K) -> Reading
    requires terms { length terms.now ≡ arity kind }
    requires vars { (j : ℕ) → j < length terms.now → (term_at terms.now j).var < K.count known.now }
    ensures rows { result.rows ≡ bits (map (agrees_below terms.now (K.known known.now) (length terms.now)) (rows_of kind)) }
    ensures known { IsTrue result.all_known → AreKnown terms.now (K.known known.now) (length terms.now) }
{
    let first = first_mask(kind);
    let mut rows = all_rows(kind);
    let mut all_known = true;
    for j in 0..terms_of(kind) {
        let term = terms[j];
        let value = known.value(term.var);
        rows = narrowed(kind, first, j, term.flipped, value, rows);
        all_known = still_known(all_known, value);
    }
    Reading { rows, all_known }
}

// The first term that is unknown and has one value in the rows.
#[inline(always)]
fn first_forced<K: Known>(kind: Kind, terms: &[Term], known: &K, rows: u16) -> Forced
    requires terms { length terms.now ≡ arity kind }
    requires vars { (j : ℕ) → j < length terms.now → (term_at terms.now j).var < K.count known.now }
    requires rows { rows ≡ bits (map (agrees_below terms.now (K.known known.now) (length terms.now)) (rows_of kind)) }
    requires some { 0 < rows }
    ensures { ForcedIs kind terms.now (K.known known.now) result }
{
    let first = first_mask(kind);
    for j in 0..terms_of(kind) {
        let term = terms[j];
        if let Some(value) = open_value(kind, first, j, known.value(term.var), rows) {
            return Forced::Value {
                var: term.var,
                value: turned(term.flipped, value),
            };
        }
    }
    Forced::Nothing
}

// What terms of the kind force. Each caller gives one kind, for which loops and masks are fixed then.
#[inline(always)]
fn forced_by<K: Known>(kind: Kind, terms: &[Term], known: &K) -> Forced
    requires terms { length terms.now ≡ arity kind }
    requires vars { (j : ℕ) → j < length terms.now → (term_at terms.now j).var < K.count known.now }
    ensures { ForcedIs kind terms.now (K.known known.now) result }
{
    let reading = read(kind, terms, known);
    if reading.rows == 0 {
        return Forced::Dead;
    }
    if reading.all_known {
        return Forced::Nothing;
    }
    first_forced(kind, terms, known, reading.rows)
}

// Whether three faces may stand to each other so.
#[inline(always)]
fn may_stand(pq: Order, pr: Order, qr: Order) -> bool
    ensures { result ≡ has_no_cycle pq pr qr }
{
    (pq != qr) | (pq == pr)
}

// What terms of transitivity force. Mostly all three are known.
#[inline(always)]
fn forced_by_three<K: Known>(terms: &[Term], known: &K) -> Forced
    requires terms { length terms.now ≡ 3 }
    requires vars { (j : ℕ) → j < length terms.now → (term_at terms.now j).var < K.count known.now }
    ensures { ForcedIs Transitivity terms.now (K.known known.now) result }
{
    let (p, q, r) = (terms[0], terms[1], terms[2]);
    let Some(a) = known.value(p.var) else {
        return forced_by(Kind::Transitivity, terms, known);
    };
    let Some(b) = known.value(q.var) else {
        return forced_by(Kind::Transitivity, terms, known);
    };
    let Some(c) = known.value(r.var) else {
        return forced_by(Kind::Transitivity, terms, known);
    };
    if may_stand(
        turned(p.flipped, a),
        turned(q.flipped, b),
        turned(r.flipped, c),
    ) {
        Forced::Nothing
    } else {
        Forced::Dead
    }
}

/// What the constraint forces from the known values: of the terms whose variable is unknown, the first that
/// has one value in all rows that agree. It takes no memory.
#[inline(always)]
pub fn forced<K: Known>(constraint: &Constraint, known: &K) -> Forced
    requires terms { length constraint.now.terms ≡ arity constraint.now.kind }
    requires vars { (j : ℕ) → j < length constraint.now.terms → (term_at constraint.now.terms j).var < K.count known.now }
    ensures { ForcedIs constraint.now.kind constraint.now.terms (K.known known.now) result }
{
    let terms = constraint.terms.as_slice();
    match constraint.kind {
        Kind::Transitivity => forced_by_three(terms, known),
        Kind::TacoTaco => forced_by(Kind::TacoTaco, terms, known),
        Kind::TacoTortilla | Kind::TortillaTortilla => forced_by(constraint.kind, terms, known),
    }
}
