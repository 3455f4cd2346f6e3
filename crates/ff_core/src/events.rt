//! What happens to a core, and what it answers.
use ff_propagate::Fact;
use ff_tables::Order;
use ff_viewer::{Question, Reply};

/// What happens.
#[derive(Drop)]
pub enum Event {
    /// A fact is deduced in the least unpublished epoch.
    Deduce {
        var: u32,
        fact: Fact,
    },
    Pin {
        viewer: u32,
        f: u32,
        g: u32,
        value: Order,
    },
    Unpin {
        viewer: u32,
        f: u32,
        g: u32,
    },
    Ask {
        viewer: u32,
        question: Question,
    },
    /// The least unpublished epoch is published.
    Publish,
}

/// Why an event changes nothing.
#[derive(Clone, Copy, Debug, PartialEq, Eq)]
pub enum Left {
    /// The variable has this fact.
    Held(Fact),
    /// No constraint forces the fact from facts of lower levels.
    NotForced,
    /// All epochs are published.
    NoEpoch,
    NotPublished { epoch: u32 },
    /// This constraint forces more.
    NotClosed { constraint: u32 },
}

/// What an event comes to.
#[derive(Drop)]
pub enum Step {
    Took,
    Said(Reply),
    Left(Left),
}
