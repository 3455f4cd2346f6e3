//! Given orders in this project's numbers of faces.
ghost use Rattle.std.specs.Prelude.{◌≡◌, ◌<◌, ◌^◌, ℕ, List, Option, Some, length, map, take, MatchResult};
ghost use Rattle.ff_orders.specs.Given.{AreOrdersOf, WhyNoOrders, WhyNotRenumbered, is_sign as sign_in, renumbered as renumbered_in};

use crate::items::OrderItem;
use crate::rings::face_numbers;
use ff_tables::Items;
use ff_types::{Faces, No, Refusal};
use std::alloc::Global;

fn is_sign(s: i8) -> bool
    ensures { result ≡ sign_in s }
{
    -1 <= s && s <= 1
}

// The item in this project's numbers.
fn renumbered(numbers: &[u32], item: Option<OrderItem>) -> Option<OrderItem>
    ensures { result ≡ renumbered_in numbers.now item }
{
    let item = item?;
    if !is_sign(item.s) || item.f == item.g {
        return None;
    }
    let f = *numbers.get(item.f as usize)?;
    let g = *numbers.get(item.g as usize)?;
    Some(OrderItem { f, g, s: item.s })
}

// All items in this project's numbers.
fn all_renumbered(
    alloc: Global,
    numbers: &[u32],
    items: &[Option<OrderItem>],
) -> Result<Items<OrderItem>, No>
    requires { length items.now < 2 ^ 32 }
    ensures { MatchResult result (λ orders. map (renumbered_in numbers.now) items.now ≡ map Some orders) (WhyNotRenumbered numbers.now items.now) }
{
    let mut orders = Items::of(Vec::new(alloc));
    for i in 0..items.len() {
        match renumbered(numbers, items[i]) {
            Some(item) => orders.push(item)?,
            None => return Err(No::Refused(Refusal::BadOrder { item: i as u32 })),
        }
    }
    Ok(orders)
}

/// Given orders in this project's numbers of faces. `rings` are the given faces, each a list of vertices that may begin at any of the
/// ring's, and the items speak of their places; where they are absent the items speak of this project's numbers. None stands for what was
/// read and isn't of its form. Refused at the first of `rings` that is the ring of no face or of an earlier one's, and where there are
/// too few; and then at the first item that isn't of two different faces with -1, 0 or 1.
pub fn orders(
    alloc: Global,
    faces: &Faces,
    rings: &Option<Items<Option<Items<u32>>>>,
    items: &Items<Option<OrderItem>>,
) -> Result<Items<OrderItem>, No>
    requires few_rings { (lists : List (Option (List ℕ))) → rings.now ≡ Some lists → length lists < 2 ^ 32 }
    requires few_faces { length faces.now.rings < 2 ^ 32 }
    requires few_items { length items.now < 2 ^ 32 }
    ensures { MatchResult result (AreOrdersOf faces.now.rings rings.now items.now) (WhyNoOrders faces.now.rings rings.now items.now) }
{
    let numbers = face_numbers(alloc, faces.rings.as_slice(), rings)?;
    all_renumbered(alloc, numbers.as_slice(), items.as_slice())
}
