//! The triples found so far.
use ff_types::Listing;

// How many triples were found. They are listed only where they are kept.
#[derive(Drop)]
pub struct Found {
    pub list: Listing,
    pub count: usize,
    pub keeps: bool,
    // Numbers of pairs, by numbers made from their faces: where to look first. Only time rests on it.
    pub guesses: Vec<u32>,
}
