//! Cases by hand.
use ff_tables::{Kind, NoMemory};
use ff_trials::{Shape, case, strip};
use ff_types::Case;
use std::alloc::Global;

/// Four panels of one width over one place, folded at each of the three creases: six pairs, transitivity of each three, and
/// taco-taco of the outer creases.
pub fn four_panels(alloc: Global) -> Result<Option<Case>, NoMemory> {
    strip(alloc, 4)
}

/// Four variables, of which the first is to be that of the second, the third that of the fourth, and the second that of the third.
pub fn chain(alloc: Global) -> Result<Option<Case>, NoMemory> {
    let mut pairs = Vec::new(alloc);
    for g in 1..5 {
        pairs.push((0, g))?;
    }
    let first: Shape = (Kind::TacoTortilla, &[(0, false), (1, false)]);
    let last: Shape = (Kind::TacoTortilla, &[(2, false), (3, false)]);
    let middle: Shape = (Kind::TacoTortilla, &[(1, false), (2, false)]);
    case(alloc, pairs, &[first, last, middle])
}
