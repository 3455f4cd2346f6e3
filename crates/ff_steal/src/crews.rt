//! Crews and their hands.
use crossbeam_deque::{Stealer, Worker};

/// What the hands of a crew share: how many they are, and a stealer for each of their deques.
#[derive(Drop)]
pub struct Crew {
    pub hands: u32,
    pub(crate) stealers: Vec<Stealer<u32>>,
}

/// A hand of a crew of `of` hands, with the deque of its tasks. A task is the number of a variable.
#[derive(Drop)]
pub struct Hand {
    pub number: u32,
    pub of: u32,
    pub(crate) own: Worker<u32>,
}
