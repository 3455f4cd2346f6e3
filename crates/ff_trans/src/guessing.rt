//! Numbers of pairs, found without a search mostly.
ghost use Rattle.std.specs.Prelude.{◌≡◌, ◌<◌, ℕ, true, slice_get, Some};
ghost use Rattle.ff_types.specs.Pairs.{number_of};

use ff_tables::NoMemory;
use ff_types::Pairs;
use std::alloc::Global;

// How many places there are for each pair, at least.
const ROOM: usize = 2;

// A place among so many, made from the faces of a pair, where these are no more than 2^32.
fn slot_of(f: u32, h: u32, slots: usize) -> usize {
    let mixed = (f.wrapping_mul(0x9e37_79b1) ^ h).wrapping_mul(0x85eb_ca6b);
    ((mixed ^ (mixed >> 15)) as usize).wrapping_mul(slots) >> 32
}

// Lets the number be tried first for the pair.
fn remember(guesses: &mut [u32], f: u32, h: u32, number: u32) {
    let slot = slot_of(f, h, guesses.len());
    if slot < guesses.len() {
        guesses[slot] = number;
    }
}

/// The numbers of the pairs, as `number` takes them.
pub fn guesses_of(alloc: Global, pairs: &Pairs) -> Result<Vec<u32>, NoMemory> {
    let slots = pairs.count().saturating_mul(ROOM);
    let mut guesses = vec![in alloc; 0; slots]?;
    for n in 0..pairs.count() as u32 {
        let (f, h) = pairs.faces(n);
        remember(guesses.as_mut_slice(), f, h, n);
    }
    Ok(guesses)
}

// Whether the pair has the number.
fn is_number(pairs: &Pairs, f: u32, h: u32, number: u32) -> bool
    ensures { result ≡ true → number_of pairs.now f h ≡ Some number }
{
    if number as usize >= pairs.count() {
        return false;
    }
    let (first, second) = pairs.faces(number);
    first == f && second == h
}

// The number to be tried first.
fn guess(guesses: &[u32], f: u32, h: u32) -> u32 {
    let slot = slot_of(f, h, guesses.len());
    if slot < guesses.len() {
        guesses[slot]
    } else {
        0
    }
}

/// The number of a pair that has one.
pub fn number(pairs: &Pairs, guesses: &[u32], f: u32, h: u32) -> u32
    requires order { f < h }
    requires listed { (n : ℕ) × (slice_get pairs.now n ≡ Some (f, h)) }
    ensures { number_of pairs.now f h ≡ Some result }
{
    let guess = guess(guesses, f, h);
    if is_number(pairs, f, h, guess) {
        return guess;
    }
    match pairs.number(f, h) {
        Some(n) => n,
        None => 0,
    }
}
