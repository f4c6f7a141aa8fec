//! The remembered next hops (RFC 4861, section 5.1, the Destination Cache). The definitions are in `specs/Memo.antt`.

ghost use Rattle.std.specs.Prelude.{◌≡◌, ◌≤◌, ◌⊎◌, ℕ, [], true, Some, None, Contains, IfOk, IfSome, IsSome, length};
ghost use Rattle.nd_addr.specs.Number.{number_of};
ghost use Rattle.nd_nexthop.specs.declared.next_hop.Hop.{Hop as Answer};
ghost use Rattle.nd_nexthop.specs.Memo.{forgotten, is_asked, max_remembered};

use crate::next_hop::Hop;
use lru::{DefaultHasher, LruCache};
use nd_addr::Addr;
use std::alloc::{AllocError, Allocator};
use std::marker::Model;
use std::num::NonZeroUsize;

/// The greatest limit on the destinations whose next hops are remembered (our choice).
pub const MAX_REMEMBERED: usize = 256;

/// The next hops of the destinations that were looked up most recently.
#[derive(Drop)]
pub(crate) struct Memo<A: Allocator> {
    /// The next hops, by the numbers of the destinations.
    hops: LruCache<u128, Hop, DefaultHasher, A>,
    /// The last moment at which they may be used, in milliseconds, if there is one.
    until: Option<u64>,
}

impl<A: Allocator> Model for Memo<A> {
    ghost use Rattle.std.specs.Prelude.{◌≤◌};
    ghost use Rattle.nd_nexthop.specs.Memo.{Memory, max_remembered};

    ghost Value = { Memory };

    ghost view = { λ m. record { limit = m.hops.cap; hops = m.hops.entries; until = m.until } };

    ghost invariant = { λ m. m.hops.cap ≤ max_remembered };
}

impl<A: Allocator + Clone> Memo<A> {
    /// Returns an empty memo, with room for so many destinations. Returns an error if out of memory.
    pub(crate) fn new(alloc: A, limit: usize) -> Result<Self, AllocError>
        requires least { 1 ≤ limit }
        requires most { limit ≤ max_remembered }
        ensures { IfOk result (λ memo. memo ≡ record { limit = limit; hops = []; until = None }) }
    {
        let limit = NonZeroUsize::new(limit).unwrap();
        Ok(Memo {
            hops: LruCache::new(alloc, limit)?,
            until: None,
        })
    }

    /// Remembers the next hop of a destination at `now`, in milliseconds, if it may be used then. If out of memory it remembers nothing more.
    pub(crate) fn remember(&mut self, now: u64, destination: Addr, hop: Hop)
        ensures hops { (e : ℕ × Answer) → Contains self.new.hops e → Contains self.old.hops e ⊎ ((is_asked now self.old.until ≡ true) × (e ≡ (number_of destination.0, hop))) }
        ensures until { self.new.until ≡ self.old.until }
        ensures limit { self.new.limit ≡ self.old.limit }
    {
        if self.is_asked(now) {
            let _ = self.hops.put(destination.to_bits(), hop);
        }
    }
}

impl<A: Allocator> Memo<A> {
    /// Returns the remembered next hop of a destination, if it may be used at `now`, in milliseconds. The destination becomes the most recent one.
    pub(crate) fn recall(&mut self, now: u64, destination: Addr) -> Option<Hop>
        ensures asked { IsSome result → is_asked now self.old.until ≡ true }
        ensures found { IfSome result (λ hop. Contains self.old.hops (number_of destination.0, hop)) }
        ensures hops { (e : ℕ × Answer) → Contains self.new.hops e → Contains self.old.hops e }
        ensures until { self.new.until ≡ self.old.until }
        ensures limit { self.new.limit ≡ self.old.limit }
    {
        if !self.is_asked(now) {
            return None;
        }
        self.hops.get(&destination.to_bits()).copied()
    }

    /// Returns true if what is remembered may be used at `now`, in milliseconds.
    pub(crate) fn is_asked(&self, now: u64) -> bool
        ensures { result ≡ is_asked now self.now.until }
    {
        match self.until {
            Some(until) => now <= until,
            None => true,
        }
    }

    /// Returns the number of destinations that are remembered.
    pub(crate) fn len(&self) -> usize
        ensures value { result ≡ length self.now.hops }
        ensures few { result ≤ self.now.limit }
    {
        self.hops.len()
    }

    /// Forgets everything.
    pub(crate) fn forget(&mut self)
        ensures { self.new ≡ forgotten self.old }
    {
        self.hops.clear();
    }

    /// Sets the last moment at which what is remembered may be used, in milliseconds, or `None` if it may be used at any moment.
    pub(crate) fn until(&mut self, until: Option<u64>)
        ensures { self.new ≡ record self.old { until = until } }
    {
        self.until = until;
    }
}
