//! How a run ends.
ghost use Rattle.std.specs.Prelude.{◌≡◌};
ghost use Rattle.ff_top.specs.Statuses.{number_of};

/// How a run ends. The program's exit status is the number of its variant, from 0 to 7.
#[derive(Clone, Copy, Debug, PartialEq, Eq)]
pub enum Status {
    /// The whole text was written.
    Done,
    /// No stacking keeps the creases.
    Impossible,
    /// The input was refused.
    Refused,
    /// The budget of turns was used up.
    Unfinished,
    /// The input couldn't be read.
    ReadFault,
    /// The output couldn't be written.
    WriteFault,
    /// Memory was refused.
    NoMemory,
    /// The words aren't of the program's form.
    Usage,
}

impl Status {
    /// The exit status.
    pub fn number(self) -> u8
        ensures { result ≡ number_of self }
    {
        self as u8
    }
}
