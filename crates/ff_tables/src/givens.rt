//! Facts that are given.
use crate::Order;

/// What gives a fact: a crease, by the number of its edge, or a pin.
#[derive(Clone, Copy, Debug, PartialEq, Eq)]
pub enum GivenBy {
    Crease(u32),
    Pin,
}

/// A value that is given of a variable.
#[derive(Clone, Copy, Debug, PartialEq, Eq)]
pub struct Given {
    pub var: u32,
    pub value: Order,
    pub by: GivenBy,
}
