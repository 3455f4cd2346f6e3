//! What may lie behind a door.
ghost use Rattle.std.specs.Prelude.{◌≡◌, ℕ, List, Option, length};

/// A value with a list of entries, to which whoever holds it may add one at a time. An entry may name a seat by its number, and
/// the value has a base that stays as it is.
pub trait Kept {
    /// What its entries are.
    type Entry;

    /// What its base is.
    type Base;

    ghost listed: { Self → List Self.Entry };

    ghost names: { Self.Entry → Option ℕ };

    ghost base: { Self → Self.Base };

    /// How many entries there are.
    fn entries(&self) -> u64
        ensures { result ≡ length (listed self.now) };
}
