//! A pin among givens.
ghost use Rattle.std.specs.Prelude.{◌≤◌, length};

use anyhow::Result;
use ff_propagate::{Facts, Reason};
use ff_tables::{Given, GivenBy, Items, Order};
use std::alloc::Global;

// The first variable from the middle on whose fact a constraint forces, and its value.
fn forced_one(facts: &Facts, vars: u32) -> Option<(u32, Order)>
    requires { vars ≤ length facts.now }
{
    for var in vars / 2..vars {
        if let Some(fact) = facts.fact(var) {
            if let Reason::Forced(_) = fact.reason {
                return Some((var, fact.value));
            }
        }
    }
    None
}

/// The givens, and a pin of a variable as it lies: of the first from the middle on whose fact a constraint forces, else of the
/// middle one as below.
pub fn with_pin(
    alloc: Global,
    givens: &Items<Given>,
    facts: &Facts,
    vars: u32,
) -> Result<Items<Given>>
    requires { vars ≤ length facts.now }
{
    let (var, value) = forced_one(facts, vars).unwrap_or((vars / 2, Order::Below));
    let mut list = Vec::from_slice(alloc, givens.as_slice())?;
    list.push(Given {
        var,
        value,
        by: GivenBy::Pin,
    })?;
    Ok(Items::of(list))
}
