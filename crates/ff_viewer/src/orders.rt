//! The words for the two orders.
ghost use Rattle.std.specs.Prelude.{◌≡◌};
ghost use Rattle.ff_log.specs.Spelling.{order_word};
ghost use Rattle.ff_viewer.specs.Grammar.{order as order_of};

use ff_tables::Order;

/// The word for the order, `above` or `below`.
pub fn order_name(value: Order) -> &'static str
    ensures { result.now ≡ order_word value }
{
    match value {
        Order::Above => "above",
        Order::Below => "below",
    }
}

/// The order that the word names, None where it is neither `above` nor `below`.
pub fn read_order(word: &str) -> Option<Order>
    ensures { result ≡ order_of word.now }
{
    match word {
        "above" => Some(Order::Above),
        "below" => Some(Order::Below),
        _ => None,
    }
}
