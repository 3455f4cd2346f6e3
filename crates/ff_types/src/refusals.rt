//! Why an input is refused.
use ff_tables::NoMemory;
use thiserror::Error;

/// A key of an input object.
#[derive(Clone, Copy, Debug, PartialEq, Eq)]
pub enum Key {
    Fold,
    VerticesCoords,
    EdgesVertices,
    EdgesAssignment,
    Pins,
    Log,
    Viewers,
    FacesVertices,
    FaceOrders,
    Choice,
    Near,
    Lines,
}

/// What there can be too many of.
#[derive(Clone, Copy, Debug, PartialEq, Eq)]
pub enum What {
    Vertices,
    Edges,
    Pins,
    Viewers,
    Commands,
    Faces,
    Cells,
    Entries,
    Pairs,
    Constraints,
    Lines,
}

/// Why an input is refused: the first reason in the order in which they are tried, with the least vertex, edge,
/// face, item, part or line at which it comes. All numbers count from 0.
#[derive(Clone, Copy, Debug, PartialEq, Eq)]
pub enum Refusal {
    /// More bytes come than the limit.
    TooLong,
    /// The bytes aren't a JSON object by serde_json's reading, which ends at a nesting of 127.
    NotJson,
    /// A key is absent or its value not of its form.
    BadKey { key: Key },
    /// An item of `vertices_coords` isn't `[x, y]` or `[x, y, 0]` of whole numbers within 64 bits.
    BadVertex { v: u32 },
    /// A coordinate is `POINT_SIZE` or more in size.
    FarVertex { v: u32 },
    /// An item of `edges_vertices` isn't two different vertices, or joins two that an earlier edge joins.
    BadEdge { e: u32 },
    /// An item of `edges_assignment` isn't one of the letters B, M, V, F and U.
    BadMark { e: u32 },
    /// A vertex stands at the point of an earlier one.
    SamePoint { v: u32 },
    /// Two edges have a common point that isn't an end of both.
    Crossing { e: u32, e2: u32 },
    /// A vertex has fewer than two edges.
    Loose { v: u32 },
    /// An edge has the outside on both sides, or its mark doesn't fit the sides on which it has the outside.
    Rim { e: u32 },
    /// The outline of the sheet leaves a vertex more than once.
    Pinch { v: u32 },
    /// A face has a corner above 180 degrees, or meets itself, at a vertex.
    Reflex { v: u32 },
    /// A vertex is strictly inside a face.
    Enclosed { v: u32 },
    /// A face isn't joined to face 0 through edges.
    Apart { face: u32 },
    /// The faces round a vertex can't all be turned: an edge would have to be folded and not folded.
    Parity { e: u32 },
    /// The folded faces don't meet at a vertex.
    Inconsistent { v: u32 },
    /// A scaled coordinate of a folded vertex would be `POINT_SIZE` or more in size.
    Oversized { v: u32 },
    /// There is more of something than the limit.
    TooMany { what: What, limit: u64 },
    /// A command isn't of the grammar.
    BadScript { viewer: u32, line: u32 },
    /// The given faces aren't the faces of the drawing, each once: the first item that is none or an earlier one again, else
    /// the number of items.
    BadFaces { item: u32 },
    /// An item of `faceOrders` isn't two different faces and one of -1, 0 and 1.
    BadOrder { item: u32 },
    /// A part has no number, or none of its solutions has the number that is given; or numbers are left over after the parts.
    BadChoice { part: u32 },
    /// An item of `near` is on faces that don't overlap, or on those of an earlier item.
    BadNear { item: u32 },
    /// An item of `lines` isn't four whole numbers below `POINT_SIZE` in size and a letter, or its ends are one point.
    BadLine { line: u32 },
    /// Two lines have exactly one common point, and it isn't whole.
    OffGrid { line: u32, line2: u32 },
    /// Two lines of different letters share a segment.
    Overlap { line: u32, line2: u32 },
}

/// Why there is no answer: a refusal, or want of memory.
#[derive(Clone, Copy, Debug, PartialEq, Eq, Error)]
pub enum No {
    #[error("the input is refused")]
    Refused(Refusal),
    #[error("out of memory")]
    NoMemory,
}

impl From<NoMemory> for No {
    ghost use Rattle.std.specs.Prelude.{◌≡◌};
    ghost use Rattle.ff_types.specs.declared.refusals.No.TheVariants.{NoMemory as out_of_memory};

    ghost from_gives = { λ _ e. e ≡ out_of_memory };

    fn from(_refused: NoMemory) -> Self {
        No::NoMemory
    }
}
