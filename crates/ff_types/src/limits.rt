//! The limits of an input. They are this project's own.

/// The most bytes of an input of `solve`. One byte more is read, to see that it is longer.
pub const MOST_BYTES: usize = 1 << 24;

/// The most vertices of a crease pattern.
pub const MOST_VERTICES: usize = 4096;

/// The most edges of a crease pattern.
pub const MOST_EDGES: usize = 8192;

/// The most faces of a crease pattern.
pub const MOST_FACES: usize = 2048;

/// The most slab cells of a folded pattern.
pub const MOST_CELLS: usize = 1 << 20;

/// The most faces over all slab cells together.
pub const MOST_ENTRIES: usize = 1 << 24;

/// The most pairs of overlapping faces.
pub const MOST_PAIRS: usize = 1 << 18;

/// The most constraints of a case, and so the most pairs of edges, and edges inside faces, that are listed.
pub const MOST_CONSTRAINTS: usize = 1 << 22;
