//! What is shown of neighbours (RFC 4861, sections 5.1 and 7.3.2). The definitions are in `specs/Shown.antt`.

ghost use Rattle.std.specs.Prelude.{List, map, ◌≡◌};
ghost use Rattle.std.specs.Option.{option_map};
ghost use Rattle.nd_addr.specs.Number.{number_of};
ghost use Rattle.nd_neighbour.specs.TableKept.{entry_in};
ghost use Rattle.nd_neighbour.specs.ShownKept.{seen};
ghost use Rattle.nd_neighbour.specs.View.{seen_in};

use crate::cache::Cache;
use crate::entry::{Entry, Stage};
use nd_addr::{Addr, Mac};
use std::alloc::Allocator;

/// What is shown of a neighbour (RFC 4861, section 5.1).
#[derive(Clone, Copy, Debug, PartialEq, Eq)]
pub struct Neighbour {
    pub addr: Addr,
    /// Its link-layer address, if it is known.
    pub mac: Option<Mac>,
    /// IsRouter: it is known to be a router.
    pub router: bool,
    pub state: Reachability,
    /// The time for which it still is REACHABLE, in milliseconds, if it is.
    pub reachable_left: Option<u64>,
}

/// What is known of the reachability of a neighbour (RFC 4861, section 7.3.2).
#[derive(Clone, Copy, Debug, PartialEq, Eq)]
pub enum Reachability {
    /// INCOMPLETE: its link-layer address is being resolved.
    Incomplete,
    /// REACHABLE: it was confirmed within the last ReachableTime.
    Reachable,
    /// STALE: it was not, and nothing was sent to it since.
    Stale,
    /// DELAY: a packet was sent to it, and a confirmation is still possible.
    Delay,
    /// PROBE: it is being probed.
    Probe,
}

impl<A: Allocator> Cache<A> {
    ghost use Rattle.nd_neighbour.specs.History.{Row, story};
    ghost use Rattle.nd_neighbour.specs.TableKept.{Stands, entry_in};
    ghost use Rattle.nd_neighbour.specs.Shown.{seen_of};
    ghost use Rattle.nd_neighbour.specs.ShownKept.{seen};
    ghost use Rattle.nd_neighbour.specs.View.{seen_in};

    /// Returns a neighbour as it is at `now`, in milliseconds, if there is an entry for it (RFC 4861, sections 5.1 and 7.3.2).
    pub fn entry(&self, now: u64, addr: Addr) -> Option<Neighbour>
        ensures value { option_map (λ n. seen_in n) result ≡ option_map (seen now) (entry_in (number_of addr.0) self.now.entries) }
        ensures seen { (history : List Row) → Stands self.now.entries history → option_map (λ n. seen_in n) result ≡ seen_of (number_of addr.0) (story (number_of addr.0) history) now }
    {
        Some(self.get(addr)?.shown(now))
    }
}

impl<A: Allocator> Cache<A> {
    ghost use Rattle.nd_neighbour.specs.History.{Row};
    ghost use Rattle.nd_neighbour.specs.TableKept.{Stands};
    ghost use Rattle.nd_neighbour.specs.Shown.{Lists};
    ghost use Rattle.nd_neighbour.specs.ShownKept.{seen};
    ghost use Rattle.nd_neighbour.specs.Left.{neighbours_left};

    /// Returns all neighbours as they are at `now`, in milliseconds, in the order of their addresses (RFC 4861, sections 5.1 and 7.3.2). It
    /// takes no memory.
    pub fn rows(&self, now: u64) -> Neighbours<'_, A>
        ensures value { neighbours_left result ≡ map (seen now) self.now.entries }
        ensures lists { (history : List Row) → Stands self.now.entries history → Lists history now (neighbours_left result) }
    {
        Neighbours::new(&self.entries, now)
    }
}

/// The neighbours as they are at a moment, in the order of their addresses.
#[derive(Drop)]
pub struct Neighbours<'a, A: Allocator> {
    rest: &'a [Entry<A>],
    moment: u64,
}

impl<'a, A: Allocator> Neighbours<'a, A> {
    ghost use Rattle.nd_neighbour.specs.ShownKept.{seen};
    ghost use Rattle.nd_neighbour.specs.Left.{neighbours_left};

    /// Returns the neighbours of all entries, as they are at a moment, in milliseconds.
    fn new(entries: &'a [Entry<A>], moment: u64) -> Self
        ensures { neighbours_left result ≡ map (seen moment) entries.entry.now }
    {
        Neighbours {
            rest: entries,
            moment,
        }
    }
}

impl<A: Allocator> Iterator for Neighbours<'_, A> {
    type Item = Neighbour;

    ghost use Rattle.std.specs.Iterator.{YieldsFirstBy, item_count};
    ghost use Rattle.nd_neighbour.specs.Left.{neighbours_left};
    ghost use Rattle.nd_neighbour.specs.View.{seen_in};

    ghost next_gives = { YieldsFirstBy seen_in neighbours_left };

    ghost remaining = { item_count neighbours_left };

    fn next(&mut self) -> Option<Neighbour> {
        let (first, rest) = self.rest.split_first()?;
        self.rest = rest;
        Some(first.shown(self.moment))
    }
}

impl<A: Allocator> Entry<A> {
    ghost use Rattle.nd_neighbour.specs.ShownKept.{left_in, seen, state_in};
    ghost use Rattle.nd_neighbour.specs.View.{seen_in};

    /// Returns what is shown of it at `now`, in milliseconds (RFC 4861, section 7.3.2).
    pub(crate) fn shown(&self, now: u64) -> Neighbour
        ensures { seen_in result ≡ seen now self.now }
    {
        Neighbour {
            addr: self.addr,
            mac: self.mac(),
            router: self.router,
            state: self.state(now),
            reachable_left: self.reachable_left(now),
        }
    }

    /// Returns the time for which a confirmation still holds at `now`, if one does, both in milliseconds (RFC 4861, section 7.3.2).
    pub fn reachable_left(&self, now: u64) -> Option<u64>
        ensures { result ≡ left_in self.now.stage now }
    {
        match &self.stage {
            Stage::Known {
                confirmed: true,
                since,
                ..
            } if now < *since => Some(*since - now),
            _ => None,
        }
    }

    /// Returns its state at `now`, in milliseconds (RFC 4861, section 7.3.2).
    pub fn state(&self, now: u64) -> Reachability
        ensures { result ≡ state_in self.now.stage now }
    {
        match &self.stage {
            // INCOMPLETE: no address is known yet.
            Stage::Resolving { .. } => Reachability::Incomplete,
            Stage::Known {
                confirmed,
                since,
                probing,
                ..
            } => {
                // REACHABLE: a ReachableTime hasn't passed since it was confirmed.
                if *confirmed && now < *since {
                    return Reachability::Reachable;
                }
                match probing {
                    // STALE: nothing was sent to it since then.
                    None => Reachability::Stale,
                    // DELAY: DELAY_FIRST_PROBE_TIME hasn't passed since a packet was.
                    Some(probing) if now < probing.from => Reachability::Delay,
                    // PROBE: it has.
                    Some(_) => Reachability::Probe,
                }
            }
        }
    }
}
