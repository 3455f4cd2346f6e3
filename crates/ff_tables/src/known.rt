//! Known values of variables, and what a constraint forces from them.
ghost use Rattle.std.specs.Prelude.{◌≡◌, ◌<◌};

use crate::Order;

/// Known values of variables. Contracts see a function from variables to what is known, and a bound on the
/// variables that may be asked for.
pub trait Known {
    ghost use Rattle.std.specs.Prelude.{ℕ, Option};
    ghost use Rattle.ff_tables.specs.declared.orders.Order.{Order as OrderSpec};

    ghost count: { Self → ℕ };

    ghost known: { Self → ℕ → Option OrderSpec };

    /// The value of the variable, where it is known.
    fn value(&self, var: u32) -> Option<Order>
        requires { var < count self.now }
        ensures { result ≡ known self.now var };
}

/// What a constraint forces.
#[derive(Clone, Copy, Debug, PartialEq, Eq)]
pub enum Forced {
    /// Some row agrees, and no unknown term has one value in all rows that agree.
    Nothing,
    /// The value of the variable of the first unknown term that has one value in all rows that agree.
    Value { var: u32, value: Order },
    /// No row agrees.
    Dead,
}
