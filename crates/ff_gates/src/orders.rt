//! Orders in which the entries of two viewers come.
use std::fmt::{self, Display, Formatter, Write};

/// When the second viewer pins a pair that the first one pins and unpins.
#[derive(Clone, Copy, Debug, PartialEq, Eq)]
pub enum Comes {
    /// Before the first one's pin.
    Before,
    /// Between the first one's pin and its unpin.
    Between,
    /// After the first one's unpin.
    After,
}

/// All of them.
pub const ALL: [Comes; 3] = [Comes::Before, Comes::Between, Comes::After];

impl Display for Comes {
    fn fmt<W: Write>(&self, f: &mut Formatter<W>) -> fmt::Result {
        f.write_str(match self {
            Comes::Before => "a pin before another's",
            Comes::Between => "a pin while another's stands",
            Comes::After => "a pin after another's was taken back",
        })
    }
}
