//! The choice of next hops: its memory, and when remembered next hops are forgotten. The definitions are in `specs/Choice.antt`.

ghost use Rattle.std.specs.Prelude.{◌≡◌, ◌≤◌, List, Option, [], None, IfOk, length};
ghost use Rattle.nd_nexthop.specs.History.{RedirectRow, max_redirects, those_left, redirects};
ghost use Rattle.nd_nexthop.specs.Left.{redirects_left};
ghost use Rattle.nd_nexthop.specs.Memo.{forgotten, is_asked, max_remembered};

use crate::kept_redirects::KeptRedirects;
use crate::memo::Memo;
use crate::target::Target;
use lru::{DefaultHasher, LruCache};
use std::alloc::{AllocError, Allocator};
use std::marker::Model;
use std::num::NonZeroUsize;

/// The greatest limit on the destinations whose redirects are kept (our choice).
pub const MAX_REDIRECTS: usize = 64;

/// Chooses next hops, with the redirects that it keeps and the next hops that it remembers: the Destination Cache of RFC 4861, section 5.1.
/// A remembered next hop is always the one that would be chosen anew.
#[derive(Drop)]
pub struct Choice<A: Allocator> {
    /// The destinations that were redirected most recently, by number. Those whose redirects ended keep their entries.
    pub(crate) redirects: LruCache<u128, Target, DefaultHasher, A>,
    pub(crate) memo: Memo<A>,
}

impl<A: Allocator> Model for Choice<A> {
    ghost use Rattle.std.specs.Prelude.{◌≤◌};
    ghost use Rattle.nd_nexthop.specs.Choice.{Table};
    ghost use Rattle.nd_nexthop.specs.History.{max_redirects};

    ghost Value = { Table };

    ghost view = { λ c. record { redirects = record { limit = c.redirects.cap; destinations = c.memo.limit; entries = c.redirects.entries }; memory = c.memo } };

    ghost invariant = { λ c. (1 ≤ c.redirects.cap) × (c.redirects.cap ≤ max_redirects) };
}

impl<A: Allocator + Clone> Choice<A> {
    ghost use Rattle.nd_nexthop.specs.Choice.{Stands};

    /// Returns a choice without redirects, with room for those of so many destinations, 1 to 64, that remembers no next hop, and may remember those of
    /// so many destinations, 1 to 256. Returns an error if out of memory.
    pub fn new(alloc: A, redirects: usize, destinations: usize) -> Result<Self, AllocError>
        requires least_redirects { 1 ≤ redirects }
        requires most_redirects { redirects ≤ max_redirects }
        requires least_destinations { 1 ≤ destinations }
        requires most_destinations { destinations ≤ max_remembered }
        ensures empty { IfOk result (λ choice. choice ≡ record { redirects = record { limit = redirects; destinations = destinations; entries = [] }; memory = record { limit = destinations; hops = []; until = None } }) }
        ensures stands { IfOk result (λ choice. Stands choice []) }
    {
        let limit = NonZeroUsize::new(redirects).unwrap();
        Ok(Choice {
            redirects: LruCache::new(alloc.clone()?, limit)?,
            memo: Memo::new(alloc, destinations)?,
        })
    }
}

impl<A: Allocator> Choice<A> {
    ghost use Rattle.nd_nexthop.specs.Choice.{Stands};

    /// Returns the kept redirects, the newest first.
    pub fn rows(&self) -> KeptRedirects<'_>
        ensures value { redirects_left result ≡ those_left self.now.redirects.entries }
        ensures by_history { (history : List RedirectRow) → Stands self.now history → redirects_left result ≡ redirects self.now.redirects.limit history }
    {
        KeptRedirects::new(self.redirects.iter())
    }

    /// Returns the number of destinations with an entry among the kept redirects, at most the limit. A destination whose redirect ended keeps its entry
    /// until another one needs the room.
    pub fn redirects_len(&self) -> usize
        ensures value { result ≡ length self.now.redirects.entries }
        ensures few { result ≤ self.now.redirects.limit }
    {
        self.redirects.len()
    }

    /// Returns the number of destinations whose next hops are remembered, at most the limit.
    pub fn remembered(&self) -> usize
        ensures value { result ≡ length self.now.memory.hops }
        ensures few { result ≤ self.now.redirects.destinations }
    {
        self.memo.len()
    }

    /// Returns true if remembered next hops may be used at `now`, in milliseconds.
    pub fn is_asked(&self, now: u64) -> bool
        ensures { result ≡ is_asked now self.now.memory.until }
    {
        self.memo.is_asked(now)
    }

    /// Forgets all remembered next hops: something that decides next hops has changed. It takes no memory.
    pub fn changed(&mut self)
        ensures { self.new ≡ record self.old { memory = forgotten self.old.memory } }
    {
        self.memo.forget();
    }

    /// Sets the last moment at which remembered next hops may be used, in milliseconds, or `None` if they may be used at any moment. The caller
    /// needs it because prefixes on the link end without an event. It takes no memory.
    pub fn until(&mut self, until: Option<u64>)
        ensures { self.new ≡ record self.old { memory = record self.old.memory { until = until } } }
    {
        self.memo.until(until);
    }
}
