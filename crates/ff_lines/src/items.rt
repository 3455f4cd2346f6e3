//! Lines as they are read.
use ff_types::Mark;
use ff_whole::Pt;

/// The most lines that are drawn.
pub const MOST_LINES: usize = 8192;

/// A line from `p` to `q` with its letter.
#[derive(Clone, Copy, Debug, PartialEq, Eq)]
pub struct LineItem {
    pub p: Pt,
    pub q: Pt,
    pub mark: Mark,
}
