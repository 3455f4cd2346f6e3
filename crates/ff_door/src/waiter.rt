//! What a seat knows, and the steps at the door's table.
use crate::kept::Kept;
use atomic_table::{Join, Play, Split, TableRule};
use std::collections::LinkedList;
use std::marker::PhantomData;
use std::snapshot::Snapshot;

/// What a seat knows. No value of it is made.
pub struct Waiter<E, B> {
    /// Its place among the seats.
    pub number: u64,
    /// The entries that it has seen.
    pub seen: LinkedList<E>,
    /// How many turns it has had.
    pub turns: u64,
    /// Whether it has a ticket.
    pub waits: bool,
    /// Whether it is in its turn.
    pub inside: bool,
    /// Its ticket, counted from the first of all.
    pub ticket: u64,
    /// Its share of the parts, of which there are as many as seats.
    pub parts: u64,
    /// Whether it is the seat that makes the next one.
    pub makes: bool,
    /// How many seats were made when it makes them.
    pub made: u64,
    /// The door's base, of a seat with parts.
    pub base: Option<B>,
    /// The numbers of the seats that were joined to it, and what they had seen.
    pub joined: LinkedList<(u64, LinkedList<E>)>,
}

/// What a door is told once: its first value, and how many seats it has.
#[derive(Drop)]
pub struct Plan<T> {
    pub first: Snapshot<T>,
    pub seats: u32,
}

/// The rule of a door's table.
pub struct Turns<T> {
    of: PhantomData<T>,
}

impl<T: Kept> TableRule<Option<T>, Waiter<T::Entry, T::Base>, Plan<T>> for Turns<T> {
    ghost use Rattle.ff_door.specs.Rule.{IsDoor, first};

    ghost holds = { λ key. IsDoor T.listed T.names T.base key };

    ghost first = { λ key. first T.listed T.names T.base key };
}

/// A ticket is drawn.
pub struct Draw;

impl<S, E, B> Play<S, Waiter<E, B>> for Draw {
    ghost use Rattle.ff_door.specs.Rule.{drew};

    ghost then = { drew };
}

/// The served ticket is looked at. Whose it is takes the value.
pub struct Arrive<T> {
    of: PhantomData<T>,
}

impl<T: Kept> Play<Option<T>, Waiter<T::Entry, T::Base>> for Arrive<T> {
    ghost use Rattle.ff_door.specs.Rule.{arrived};

    ghost then = { arrived T.listed T.names T.base };
}

/// The next ticket is served.
pub struct Serve<T> {
    of: PhantomData<T>,
}

impl<T: Kept> Play<Option<T>, Waiter<T::Entry, T::Base>> for Serve<T> {
    ghost use Rattle.ff_door.specs.Rule.{served_next};

    ghost then = { served_next T.listed };
}

/// A seat gives its parts but one to the next seat.
pub struct Parts;

impl<E, B> Split<Waiter<E, B>> for Parts {
    ghost use Rattle.ff_door.specs.Rule.{left_over, cut_off};

    ghost left = { left_over };

    ghost right = { cut_off };
}

/// A seat takes in another.
pub struct Gather;

impl<E, B> Join<Waiter<E, B>> for Gather {
    ghost use Rattle.ff_door.specs.Rule.{gathered, spent};

    ghost both = { gathered };

    ghost spent = { spent };
}
