//! The neighbour cache (RFC 4861, section 5.1): its memory, its limit and look-ups.

ghost use Rattle.std.specs.Prelude.{IfOk, [], List, ◌≡◌, ◌≤◌, ◌+◌, is_some, length, option_copied};
ghost use Rattle.nd_addr.specs.Number.{number_of};
ghost use Rattle.nd_packet.specs.Waiting.{max_waiting};
ghost use Rattle.nd_table.specs.KeyedKept.{binary_digits};

use crate::entry::Entry;
use crate::rings::Rings;
use nd_addr::Addr;
use nd_table::{Probes, Schedule, locate_near, search};
use std::alloc::{AllocError, Allocator};
use std::marker::Model;

/// The most neighbours that a cache may have room for (our choice).
pub const MAX_NEIGHBOURS: usize = 2048;

/// The neighbours of a node on its link (RFC 4861, section 5.1). Each moment that a call takes or returns is in
/// milliseconds, from a beginning that the caller chooses.
#[derive(Drop)]
pub struct Cache<A: Allocator> {
    pub(crate) entries: Vec<Entry<A>, A>,
    /// The dates of the entries.
    pub(crate) dates: Schedule<A>,
    pub(crate) rings: Rings<A>,
    pub(crate) limit: usize,
    /// Where an entry was found last. A packet mostly goes to the neighbour that a message or a search was about, and is looked for there first.
    pub(crate) near: usize,
}

impl<A: Allocator> Model for Cache<A> {
    ghost use Rattle.std.specs.Prelude.{◌≤◌};
    ghost use Rattle.std.specs.Vec.{vec_len, vec_capacity};
    ghost use Rattle.nd_neighbour.specs.TableKept.{Table};
    ghost use Rattle.nd_neighbour.specs.Planned.{IsPlanned};
    ghost use Rattle.nd_neighbour.specs.Rings.{RoomWithin};

    ghost Value = { Table };

    ghost view = { λ c. record { limit = c.limit; entries = c.entries.items; waiting = c.rings.room; rings = c.rings.count } };

    ghost invariant = { λ c. (vec_len c.entries ≤ c.limit) × (c.limit ≤ vec_capacity c.entries) × (c.limit ≤ c.dates.room) × IsPlanned c.entries.items c.dates × RoomWithin c.rings.room c.entries.items };
}

impl<A: Allocator + Clone> Cache<A> {
    ghost use Rattle.nd_neighbour.specs.TableKept.{Stands, max_neighbours};

    /// Returns an empty cache with room for `limit` neighbours, 1 to 2048, all of it reserved here. For each of them so many packets may wait, 1 to 8.
    /// Returns an error if out of memory.
    pub fn new(alloc: A, limit: usize, waiting: usize) -> Result<Self, AllocError>
        requires least { 1 ≤ limit }
        requires most { limit ≤ max_neighbours }
        requires least_waiting { 1 ≤ waiting }
        requires most_waiting { waiting ≤ max_waiting }
        ensures empty { IfOk result (λ cache. cache ≡ record { limit = limit; entries = []; waiting = waiting; rings = 0 }) }
        ensures stands { IfOk result (λ cache. Stands cache.entries []) }
    {
        let entries = Vec::with_capacity(alloc.clone()?, limit)?;
        let dates = Schedule::new(alloc, limit)?;
        Ok(Cache {
            entries,
            dates,
            rings: Rings::new(waiting),
            limit,
            near: 0,
        })
    }
}

impl<A: Allocator> Cache<A> {
    ghost use Rattle.nd_neighbour.specs.History.{Row, story};
    ghost use Rattle.nd_neighbour.specs.Story.{is_present};
    ghost use Rattle.nd_neighbour.specs.TableKept.{Stands, entry_in};

    /// Returns true if a neighbour is present. `probes` counts the entries that the search looks at: at most as many as the number of
    /// neighbours has binary digits.
    pub fn find(&self, addr: Addr, probes: &mut Probes) -> bool
        ensures value { result ≡ is_some (entry_in (number_of addr.0) self.now.entries) }
        ensures present { (history : List Row) → Stands self.now.entries history → result ≡ is_present (story (number_of addr.0) history) }
        ensures looks { probes.new.looks ≤ probes.old.looks + binary_digits (length self.now.entries) }
        ensures counts { probes.old.looks ≤ probes.new.looks }
    {
        let number = addr.to_bits();
        search(&self.entries, &number, probes).is_ok()
    }

    /// Returns true if a neighbour is present, as `find` does, and keeps its place: if the next call is `get`, `used` or `want` for it, it needs no
    /// search.
    pub fn seek(&mut self, addr: Addr) -> bool
        ensures value { result ≡ is_some (entry_in (number_of addr.0) self.old.entries) }
        ensures same { self.new ≡ self.old }
    {
        match locate_near(&self.entries, addr, self.near) {
            Ok(i) => {
                self.near = i;
                true
            }
            Err(_) => false,
        }
    }

    /// Returns the entry of a neighbour, if there is one. It is not copied, so that the caller pays for what it asks alone.
    pub fn get(&self, addr: Addr) -> Option<&Entry<A>>
        ensures { option_copied result ≡ entry_in (number_of addr.0) self.now.entries }
    {
        match locate_near(&self.entries, addr, self.near) {
            Ok(i) => Some(&self.entries[i]),
            Err(_) => None,
        }
    }

    /// Returns the number of neighbours, at most as many as the cache has room for.
    pub fn len(&self) -> usize
        ensures value { result ≡ length self.now.entries }
        ensures few { result ≤ self.now.limit }
    {
        self.entries.len()
    }
}
