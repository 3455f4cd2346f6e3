//! The folding of the faces of a crease pattern.
#![tactic(auto)]

mod flags;
mod folding;
mod image;
mod index;
mod laws;
mod place;
mod placed;
mod sizes;
mod walk;

pub use folding::fold;
pub use laws::{
    faces_fold_or_are_refused, faces_have_one_folding, faces_have_one_refusal,
    refused_faces_dont_fold,
};
