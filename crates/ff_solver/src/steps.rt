//! Steps of a refutation.
use ff_tables::Order;

/// A step of a refutation of a part, by the case's numbers of variables and constraints.
#[derive(Clone, Copy, Debug, PartialEq, Eq)]
pub enum Step {
    /// Below of the variable is tried: a branch opens.
    Try(u32),
    /// The constraint with the number `by` forces the value.
    Set { var: u32, value: Order, by: u32 },
    /// The constraint with this number is dead: the innermost open branch closes, and Above of what was tried in it holds; or,
    /// where no branch is open, the refutation ends.
    Dead(u32),
}
