//! What constraints rest on.
use ff_tables::Constraint;
use ff_whole::Place;

/// What a constraint of a folded sheet rests on. The places, where there are some, witness it. The families are those
/// of Flat-Folder: taco-taco, taco-tortilla, tortilla-tortilla and transitivity.
#[derive(Clone, Copy, Debug, PartialEq, Eq)]
pub enum Cite {
    /// The faces f < g < h have a common place.
    Transitivity {
        f: u32,
        g: u32,
        h: u32,
        at: [Place; 3],
    },
    /// The folded edges e < e2 share a segment, with all four faces on one side.
    TacoTaco {
        e: u32,
        e2: u32,
    },
    /// The folded edge has a part inside the face.
    TacoFace {
        e: u32,
        face: u32,
        at: [Place; 2],
    },
    /// The folded edge and the flat edge share a segment.
    TacoEdge {
        e: u32,
        flat: u32,
    },
    /// The flat edge has a part inside the face.
    FlatFace {
        flat: u32,
        face: u32,
        at: [Place; 2],
    },
    /// The flat edges flat < flat2 share a segment.
    FlatEdge {
        flat: u32,
        flat2: u32,
    },
}

/// A constraint with its cite.
#[derive(Drop)]
pub struct Listed {
    pub constraint: Constraint,
    pub cite: Cite,
}
