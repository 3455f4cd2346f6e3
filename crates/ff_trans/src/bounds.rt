//! How many triples there may be.
use ff_types::Pairs;

/// A number that the triples don't exceed: each has two pairs that begin with its first face. Only time rests on it.
pub fn most_triples(pairs: &Pairs) -> usize {
    let mut most = 0usize;
    let mut before = 0usize;
    for n in 1..pairs.count() as u32 {
        before = if pairs.faces(n).0 == pairs.faces(n - 1).0 {
            before.saturating_add(1)
        } else {
            0
        };
        most = most.saturating_add(before);
    }
    most
}
