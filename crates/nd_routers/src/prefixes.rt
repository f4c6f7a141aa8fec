ghost use Rattle.std.specs.Prelude.{◌≡◌, ◌≤◌, ◌∷◌, ℕ, List, [], length, map, IfOk};
ghost use Rattle.nd_addr.specs.Prefix.{PrefixValue};
ghost use Rattle.nd_addr.specs.Same.{same_prefix};
ghost use Rattle.nd_table.specs.declared.lasting.Lasting.{Lasting};
ghost use Rattle.nd_table.specs.Announcements.{Row, Cleared, last_moment};
ghost use Rattle.nd_table.specs.Listing.{open_at};
ghost use Rattle.nd_table.specs.ListingKept.{Stands};
ghost use Rattle.nd_table.specs.Left.{lifetimes_left};
ghost use Rattle.nd_table.specs.Shown.{seen, Shows};
ghost use Rattle.nd_routers.specs.OnLinkPrefixes.{max_prefixes};

use nd_addr::Prefix;
use nd_table::{Lasting, WithLifetimes};
use std::alloc::{AllocError, Allocator};
use std::marker::Model;

/// The greatest limit on prefixes (our choice).
pub const MAX_PREFIXES: usize = 64;

/// The prefixes that are on the link, in the order in which they were added (RFC 4861, section 5.1).
#[derive(Drop)]
pub struct Prefixes<A: Allocator> {
    pub(crate) limit: usize,
    pub(crate) entries: Vec<Lasting<Prefix>, A>,
}

impl<A: Allocator> Model for Prefixes<A> {
    ghost use Rattle.std.specs.Prelude.{◌≤◌};
    ghost use Rattle.std.specs.Vec.{vec_len, vec_capacity};
    ghost use Rattle.nd_routers.specs.OnLinkPrefixes.{max_prefixes};
    ghost use Rattle.nd_routers.specs.PrefixesKept.{Prefixes};
    ghost use Rattle.nd_table.specs.ListingKept.{Distinct};
    ghost use Rattle.nd_addr.specs.Same.{same_prefix};

    ghost Value = { Prefixes };

    ghost view = { λ p. record { limit = p.limit; entries = p.entries.items } };

    ghost invariant = { λ p. (vec_len p.entries ≤ p.limit) × (p.limit ≤ vec_capacity p.entries) × Distinct same_prefix p.entries.items × (p.limit ≤ max_prefixes) };
}

impl<A: Allocator> Prefixes<A> {
    /// Returns an empty list with room for `limit` prefixes, 1 to 64, all of it reserved here. Returns an error if out of memory.
    pub fn new(alloc: A, limit: usize) -> Result<Self, AllocError>
        requires least { 1 ≤ limit }
        requires most { limit ≤ max_prefixes }
        ensures empty { IfOk result (λ prefixes. prefixes ≡ record { limit = limit; entries = [] }) }
        ensures stands { IfOk result (λ prefixes. Stands same_prefix prefixes.entries []) }
    {
        Ok(Prefixes {
            limit,
            entries: Vec::with_capacity(alloc, limit)?,
        })
    }

    /// Returns the prefixes that are on the link at `now`, with what is left of their lifetimes, both in milliseconds, in the order in which they
    /// entered the list. fe80::/64 isn't among them. It takes no memory.
    pub fn rows(&self, now: u64) -> WithLifetimes<'_, Prefix>
        ensures value { lifetimes_left result ≡ map (seen now) (open_at now self.now.entries) }
        ensures lists { (history : List (Row PrefixValue)) → Stands same_prefix self.now.entries history → last_moment history ≤ now → Shows same_prefix history now (lifetimes_left result) }
    {
        WithLifetimes::new(&self.entries, now)
    }

    /// Returns the number of prefixes in the list, at most the limit. Those that have ended but weren't yet removed are counted.
    pub fn len(&self) -> usize
        ensures value { result ≡ length self.now.entries }
        ensures few { result ≤ self.now.limit }
    {
        self.entries.len()
    }

    /// Removes all prefixes from the list. fe80::/64 is still on the link.
    pub fn clear(&mut self)
        ensures value { self.new ≡ record { limit = self.old.limit; entries = [] } }
        ensures stands { (at : ℕ) (history : List (Row PrefixValue)) → Stands same_prefix self.new.entries (Cleared at ∷ history) }
    {
        self.entries.clear();
    }
}
