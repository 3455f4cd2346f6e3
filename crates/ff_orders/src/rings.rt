//! Which faces given lists of vertices are.
ghost use Rattle.std.specs.Prelude.{ℕ, List, Option, ◌≡◌, ◌↔◌, ◌+◌, ◌<◌, ◌^◌, ◌++◌, drop, take, length, map, IfOk, IsTrue, MatchOption, MatchResult, slice_get, Some};
ghost use Rattle.std.specs.List.{Contains, range_with_len};
ghost use Rattle.ff_orders.specs.Verdicts.{IsFirst, Never};
ghost use Rattle.ff_orders.specs.Given.{AreFirstNumbers, AreNumbers, AreNumbersBy, IsFaceOf, IsItemOf, IsTurn, WhyNoNumbers, WhyNoNumbersBy};

use ff_tables::{Items, NoMemory};
use ff_types::{No, Refusal};
use std::alloc::Global;

// Whether the list is the ring, begun at the place.
fn is_turn_at(ring: &[u32], list: &[u32], k: usize) -> bool
    requires { k < length ring.now }
    ensures { IsTrue result ↔ (list.now ≡ drop k ring.now ++ take k ring.now) }
{
    match list.strip_prefix(&ring[k..]) {
        Some(rest) => rest == &ring[..k],
        None => false,
    }
}

// Whether the list is the ring, begun at any of its vertices.
fn is_turn(ring: &[u32], list: &[u32]) -> bool
    ensures { IsTrue result ↔ IsTurn ring.now list.now }
{
    for k in 0..ring.len() {
        if is_turn_at(ring, list, k) {
            return true;
        }
    }
    false
}

// The face whose ring the list is.
fn face_of(rings: &[Items<u32>], list: &[u32]) -> Option<usize>
    ensures { MatchOption result ((f : ℕ) → IsFaceOf rings.now list.now f → ⊥) (IsFaceOf rings.now list.now) }
{
    for f in 0..rings.len() {
        if is_turn(rings[f].as_slice(), list) {
            return Some(f);
        }
    }
    None
}

// The face of the given list at the place.
fn face_at(rings: &[Items<u32>], given: &[Option<Items<u32>>], i: usize) -> Option<usize>
    requires { i < length given.now }
    ensures { MatchOption result ((f : ℕ) → IsItemOf rings.now given.now i f → ⊥) (IsItemOf rings.now given.now i) }
{
    match &given[i] {
        Some(list) => face_of(rings, list.as_slice()),
        None => None,
    }
}

fn bad_faces(item: usize) -> No
    requires { item < 2 ^ 32 }
    ensures { result ≡ No.Refused (Refusal.BadFaces item) }
{
    No::Refused(Refusal::BadFaces { item: item as u32 })
}

// Adds the face of the given list at the place, where it isn't that of an earlier one.
fn push_number(
    rings: &[Items<u32>],
    given: &[Option<Items<u32>>],
    i: usize,
    numbers: &mut Items<u32>,
) -> Result<(), No>
    requires few { length given.now < 2 ^ 32 }
    requires few_rings { length rings.now < 2 ^ 32 }
    requires within { i < length given.now }
    requires numbers { AreFirstNumbers rings.now given.now i numbers.old }
    ensures { MatchResult result (λ _. AreFirstNumbers rings.now given.now (i + 1) numbers.new) (WhyNoNumbers rings.now given.now) }
{
    let Some(f) = face_at(rings, given, i) else {
        return Err(bad_faces(i));
    };
    if numbers.as_slice().contains(&(f as u32)) {
        return Err(bad_faces(i));
    }
    numbers.push(f as u32)?;
    Ok(())
}

// The faces of the given lists.
fn numbers_of(
    alloc: Global,
    rings: &[Items<u32>],
    given: &[Option<Items<u32>>],
) -> Result<Items<u32>, No>
    requires few { length given.now < 2 ^ 32 }
    requires few_rings { length rings.now < 2 ^ 32 }
    ensures { MatchResult result (λ numbers. AreNumbers rings.now given.now numbers) (WhyNoNumbers rings.now given.now) }
{
    let mut numbers = Items::of(Vec::new(alloc));
    for i in 0..given.len() {
        push_number(rings, given, i, &mut numbers)?;
    }
    if given.len() < rings.len() {
        return Err(bad_faces(given.len()));
    }
    Ok(numbers)
}

// The numbers below the count.
fn all_numbers(alloc: Global, count: usize) -> Result<Items<u32>, NoMemory>
    requires { count < 2 ^ 32 }
    ensures { IfOk result (λ numbers. numbers ≡ range_with_len 0 count) }
{
    let mut numbers = Items::of(Vec::new(alloc));
    for f in 0..count {
        numbers.push(f as u32)?;
    }
    Ok(numbers)
}

/// The number of the face of each given list of vertices, or why there is none; without given lists each face's own.
pub(crate) fn face_numbers(
    alloc: Global,
    rings: &[Items<u32>],
    given: &Option<Items<Option<Items<u32>>>>,
) -> Result<Items<u32>, No>
    requires few { (lists : List (Option (List ℕ))) → given.now ≡ Some lists → length lists < 2 ^ 32 }
    requires few_rings { length rings.now < 2 ^ 32 }
    ensures { MatchResult result (λ numbers. AreNumbersBy rings.now given.now numbers) (WhyNoNumbersBy rings.now given.now) }
{
    match given {
        Some(given) => numbers_of(alloc, rings, given.as_slice()),
        None => {
            let numbers = all_numbers(alloc, rings.len())?;
            Ok(numbers)
        }
    }
}
