//! The number of entries that a search looks at.

ghost use Rattle.std.specs.Prelude.{◌≡◌, ℕ, ◌≤◌, ◌+◌};

/// A counter of the entries that a search looks at.
pub trait Counter {
    /// The number counted so far.
    ghost count: { Self → ℕ };

    /// Counts one more entry.
    fn look(&mut self)
        ensures more { count self.new ≤ count self.old + 1 }
        ensures kept { count self.old ≤ count self.new };
}

/// The number of entries that a search has looked at. The count stops at the greatest number.
#[derive(Clone, Copy, Debug, PartialEq, Eq)]
pub struct Probes {
    pub looks: u64,
}

impl Probes {
    /// Returns a count of none.
    pub fn new() -> Self
        ensures { result.looks ≡ 0 }
    {
        Probes { looks: 0 }
    }
}

impl Counter for Probes {
    ghost count = { λ p. p.looks };

    fn look(&mut self) {
        if self.looks < u64::MAX {
            self.looks += 1;
        }
    }
}

/// A counter for searches that nobody counts.
#[derive(Clone, Copy)]
pub(crate) struct Uncounted;

impl Counter for Uncounted {
    ghost count = { λ _. 0 };

    fn look(&mut self) {}
}
