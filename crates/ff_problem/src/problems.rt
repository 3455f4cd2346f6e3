//! What a crease pattern comes to.
use ff_types::{Case, Faces, Folded};

/// The faces of a crease pattern, their folding, and the case of the folded sheet.
#[derive(Drop)]
pub struct Problem {
    pub faces: Faces,
    pub folded: Folded,
    pub case: Case,
}
