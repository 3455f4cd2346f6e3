//! The folded sheet as layers: over every place, exactly which faces lie there.
#![tactic(auto)]

mod active;
mod adding;
mod bars;
mod border;
mod cell;
mod face_lists;
mod found;
mod heights;
mod laws;
mod layers;
mod reaching;
mod recent;
mod settling;
mod slab;
mod steps;
mod sweep;

pub use cell::Cell;
pub use face_lists::are_face_lists;
pub use laws::{cells_are_counted, given_or_refused};
pub use layers::cells;
