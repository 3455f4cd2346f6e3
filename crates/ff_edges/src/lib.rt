//! Which images of edges run along each other, and which run inside faces.
#![tactic(auto)]

mod along;
mod append;
mod beside;
mod blocks;
mod clips;
mod common;
mod crossed;
mod edge_face;
mod edge_pair;
mod extents;
mod marks;
mod reaches;
mod shared;
mod sides;

pub use along::edge_pairs;
pub use beside::{ends, face_left};
pub use common::{common_way, earlier, is_before, later};
pub use crossed::edge_faces;
pub use edge_face::EdgeFace;
pub use edge_pair::EdgePair;
pub use shared::shared_segment;
