//! Entries that have a date.

ghost use Rattle.std.specs.Prelude.{◌≡◌, ℕ, Option};

/// An entry of a table for which something is due at a moment. An entry with several dates has one for each kind `K`.
pub trait Dated<K> {
    /// The moment, if there is one.
    ghost date: { Self → Option ℕ };

    /// Returns the moment, in milliseconds.
    fn date(&self) -> Option<u64>
        ensures { result ≡ date self.now };
}
