//! The bars that the sweep has come to.
use crate::bars::Bar;

// How many bars begin at the sweep's x or before, and those of them that don't end before it: in the order in which the
// last slab had them, and then those that begin at the x. So most of them stand in order for the next slab.
#[derive(Drop)]
pub struct Active {
    pub bars: Vec<Bar>,
    pub reached: usize,
}
