//! Constraints and their terms.
ghost use Rattle.std.specs.Prelude.{◌≡◌, ◌≤◌, length};
ghost use Rattle.ff_tables.specs.Rows.{arity};

use arrayvec::ArrayVec;
use std::marker::Model;

/// The four families of constraints, by the names of Flat-Folder's documentation.
#[derive(Clone, Copy, Debug, PartialEq, Eq)]
pub enum Kind {
    TacoTaco,
    TacoTortilla,
    TortillaTortilla,
    Transitivity,
}

/// A variable, whose value is swapped where the term is flipped.
#[derive(Clone, Copy, Debug, PartialEq, Eq, Default)]
pub struct Term {
    pub var: u32,
    pub flipped: bool,
}

/// At most six terms, in place.
#[derive(Drop)]
pub struct Terms {
    list: ArrayVec<Term, 6>,
}

impl Model for Terms {
    ghost use Rattle.std.specs.Prelude.{List};
    ghost use Rattle.ff_tables.specs.declared.terms.Term.{Term};

    ghost Value = { List Term };

    ghost view = { λ a. a.list.items };
}

impl Terms {
    /// The list of these terms. It takes no memory.
    pub fn of(list: ArrayVec<Term, 6>) -> Terms
        ensures { result ≡ list.items }
    {
        Terms { list }
    }

    /// The terms in their order.
    #[inline]
    pub fn as_slice(&self) -> &[Term]
        ensures value { result.now ≡ self.now }
        ensures few { length result.now ≤ 6 }
    {
        self.list.as_slice()
    }
}

/// Terms that together have one of the rows of the kind.
#[derive(Drop)]
pub struct Constraint {
    pub kind: Kind,
    pub terms: Terms,
}

/// How many terms a constraint of the kind has.
#[inline(always)]
pub fn terms_of(kind: Kind) -> usize
    ensures { result ≡ arity kind }
{
    match kind {
        Kind::TacoTaco => 6,
        Kind::Transitivity => 3,
        Kind::TacoTortilla => 2,
        Kind::TortillaTortilla => 2,
    }
}
