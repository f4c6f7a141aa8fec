ghost use Rattle.std.specs.Prelude.{◌≡◌, ◌≢◌, ◌⊎◌, Bool, true, false};

/// A name of a key, as it is in an announcement that is not kept.
pub trait NamesKey<K> {
    /// The key that it names.
    ghost named: { Self → K };

    /// Two keys are the same.
    ghost same: { K → K → Bool };

    /// Returns true if it names this key.
    fn names(&self, key: &K) -> bool
        ensures { result ≡ same key.now (named self.now) };

    /// Returns true if another name is of the same key.
    fn names_same(&self, other: &Self) -> bool
        ensures { result ≡ same (named other.now) (named self.now) };

    ghost tells: { (a b : K) → ((same a b ≡ true) × (a ≡ b)) ⊎ ((same a b ≡ false) × (a ≢ b)) };
}
