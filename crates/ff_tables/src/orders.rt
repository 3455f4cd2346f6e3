//! The two orders of a pair of faces.
ghost use Rattle.std.specs.Prelude.{◌≡◌};
ghost use Rattle.ff_tables.specs.Orders.{turn};

/// How the first face of a pair stands to the second.
#[derive(Clone, Copy, Debug, PartialEq, Eq)]
pub enum Order {
    Below,
    Above,
}

/// The order, or the other one where it is flipped.
#[inline]
pub(crate) fn turned(flipped: bool, value: Order) -> Order
    ensures { result ≡ turn flipped value }
{
    if flipped {
        match value {
            Order::Below => Order::Above,
            Order::Above => Order::Below,
        }
    } else {
        value
    }
}
