ghost use Rattle.std.specs.Prelude.{◌≡◌, ℕ, List, [], ◌∷◌, MatchOption};

use crate::names_key::NamesKey;

/// The announcements of a message: names of keys, each with a lifetime in seconds, in their order.
pub trait Announces<K, Q: NamesKey<K>> {
    /// The keys that are left.
    ghost told: { Self → List (K × ℕ) };

    /// Returns the next one.
    fn next_told(&mut self) -> Option<(Q, u32)>
        ensures { MatchOption result (told self.old ≡ []) (λ p. told self.old ≡ (Q.named p.0, p.1) ∷ told self.new) };
}
