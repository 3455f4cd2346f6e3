//! Crews and their hands.
ghost use Rattle.std.specs.Prelude.{◌≡◌, ◌<◌, IfOk};

use anyhow::{Context, Error, Result};
use ff_steal::{Crew, Hand, crew};
use std::alloc::Global;

// The last of the hands, if it is one of the crew.
fn next_hand(crew: &Crew, hands: &mut Vec<Hand>) -> Result<Hand>
    ensures { IfOk result (λ hand. (hand.of ≡ crew.now.hands) × (hand.number < hand.of)) }
{
    let hand = hands.pop().context("no hand")?;
    if hand.of != crew.hands || hand.number >= hand.of {
        return Err(Error::msg("no hand of the crew"));
    }
    Ok(hand)
}

/// A crew of one hand.
pub fn one_hand(alloc: Global) -> Result<(Crew, Hand)>
    ensures { IfOk result (λ r. (r.1.of ≡ r.0.hands) × (r.1.number < r.1.of)) }
{
    let (crew, mut hands) = crew(alloc, 1)?;
    let hand = next_hand(&crew, &mut hands)?;
    Ok((crew, hand))
}

/// A crew of two hands.
pub fn two_hands(alloc: Global) -> Result<(Crew, Hand, Hand)>
    ensures { IfOk result (λ r. (r.1.of ≡ r.0.hands) × (r.1.number < r.1.of) × (r.2.of ≡ r.0.hands) × (r.2.number < r.2.of)) }
{
    let (crew, mut hands) = crew(alloc, 2)?;
    let second = next_hand(&crew, &mut hands)?;
    let first = next_hand(&crew, &mut hands)?;
    Ok((crew, first, second))
}
