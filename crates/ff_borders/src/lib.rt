//! Laws of folded sheets: how the images of edges and faces meet at border places.
#![tactic(auto)]

mod laws;

pub use laws::{
    faces_lie_aside, faces_meet_once, inner_edges_have_two_faces, one_flat_edge_stacks,
    one_place_tells, plain_places_are_there, side_faces_have_common, terms_are_pairs,
    witnessed_cites_hold,
};
