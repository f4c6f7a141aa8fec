//! Entries of a list in the order of keys.

ghost use Rattle.std.specs.Prelude.{◌≡◌, ℕ};
ghost use Rattle.std.specs.Ordering.{nat_cmp};

use std::cmp::Ordering;

/// An entry of a list in the order of keys. A search passes a `K` for the key that it looks for.
pub trait Ranked<K> {
    /// Its key as a number.
    ghost key: { Self → ℕ };

    /// The key that a `K` names, as a number.
    ghost number: { K → ℕ };

    /// Returns the order of its key and the one that is searched for.
    fn compare(&self, sought: &K) -> Ordering
        ensures { result ≡ nat_cmp (key self.now) (number sought.now) };
}
