//! Pinned orders.
use ff_tables::Order;

/// A pinned order of two faces. Above says that `f` is above `g`.
#[derive(Clone, Copy, Debug, PartialEq, Eq)]
pub struct Pin {
    pub f: u32,
    pub g: u32,
    pub value: Order,
}
