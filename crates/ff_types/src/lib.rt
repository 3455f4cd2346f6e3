//! Crease patterns, their faces and foldings, the case of constraints that they give, and why an input is refused.
#![tactic(auto)]

mod cases;
mod cites;
mod faces;
mod laws;
mod limits;
mod listing;
mod pairs;
mod patterns;
mod pins;
mod refusals;

pub use cases::{Case, case_of};
pub use cites::{Cite, Listed};
pub use faces::{EdgeSides, Faces, Folded};
pub use laws::{one_crease_has_two_faces, plain_sheets_lie_flat};
pub use limits::{
    MOST_BYTES, MOST_CELLS, MOST_CONSTRAINTS, MOST_EDGES, MOST_ENTRIES, MOST_FACES, MOST_PAIRS,
    MOST_VERTICES,
};
pub use listing::Listing;
pub use pairs::{Pairs, pairs_of};
pub use patterns::{EdgeEnds, Mark, Pattern};
pub use pins::Pin;
pub use refusals::{Key, No, Refusal, What};
