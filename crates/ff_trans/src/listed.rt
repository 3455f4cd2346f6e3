//! The constraint of a triple.
ghost use Rattle.std.specs.Prelude.{◌≡◌, ◌<◌, ℕ, false, slice_get, Some};
ghost use Rattle.ff_tables.specs.declared.terms.Term.{Term as TermRow};
ghost use Rattle.ff_types.specs.Sheets.{Sheet};
ghost use Rattle.ff_types.specs.Pairs.{number_of};
ghost use Rattle.ff_types.specs.Cases.{IsConstraintOf};
ghost use Rattle.ff_types.specs.declared.cites.Cite.TheVariants.{Transitivity};
ghost use Rattle.ff_cells.specs.declared.cell.Cell.{Cell as CellRow};

use crate::guessing::number;
use arrayvec::ArrayVec;
use ff_cells::Cell;
use ff_tables::{Constraint, Kind, Term, Terms};
use ff_types::{Cite, Listed, Pairs};

fn term(pairs: &Pairs, guesses: &[u32], f: u32, h: u32) -> Term
    requires order { f < h }
    requires listed { (n : ℕ) × (slice_get pairs.now n ≡ Some (f, h)) }
    ensures var { number_of pairs.now f h ≡ Some result.var }
    ensures flipped { result.flipped ≡ false }
{
    Term {
        var: number(pairs, guesses, f, h),
        flipped: false,
    }
}

/// The constraint of the faces f < h < k, which overlap, with the corners of a cell that has them.
pub fn listed(pairs: &Pairs, guesses: &[u32], f: u32, h: u32, k: u32, cell: &Cell) -> Listed
    requires low { f < h }
    requires high { h < k }
    requires first { (n : ℕ) × (slice_get pairs.now n ≡ Some (f, h)) }
    requires second { (n : ℕ) × (slice_get pairs.now n ≡ Some (f, k)) }
    requires third { (n : ℕ) × (slice_get pairs.now n ≡ Some (h, k)) }
    ensures cite { result.cite ≡ Transitivity f h k cell.now.at }
    ensures constraint { (g : Sheet) → IsConstraintOf g pairs.now result.cite result.constraint }
{
    let mut terms: ArrayVec<Term, 6> = ArrayVec::new();
    terms.push(term(pairs, guesses, f, h));
    terms.push(term(pairs, guesses, f, k));
    terms.push(term(pairs, guesses, h, k));
    Listed {
        constraint: Constraint {
            kind: Kind::Transitivity,
            terms: Terms::of(terms),
        },
        cite: Cite::Transitivity {
            f,
            g: h,
            h: k,
            at: cell.at,
        },
    }
}
