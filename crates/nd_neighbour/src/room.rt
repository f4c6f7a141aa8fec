//! Room for one neighbour, and for a second one after it. The definitions are in `specs/Room.antt`.

ghost use Rattle.std.specs.Prelude.{List, Some, is_some, length, not, slice_get, true, ◌<◌, ◌==◌, ◌↔◌, ◌≡◌};
ghost use Rattle.std.specs.List.{list_any};
ghost use Rattle.std.specs.Option.{option_map};
ghost use Rattle.nd_addr.specs.Number.{number_of};
ghost use Rattle.nd_neighbour.specs.EntryKept.{NeighbourEntry};
ghost use Rattle.nd_neighbour.specs.TableKept.{Rises, entry_in};
ghost use Rattle.nd_neighbour.specs.PlaceKept.{stalest};
ghost use Rattle.nd_neighbour.specs.RoomKept.{has_room, place_behind, place_beside, place_without, stale_beside, stays_stale};

use crate::cache::Cache;
use crate::entry::Entry;
use crate::place::{has_place, stalest};
use nd_addr::Addr;
use nd_table::{Addressed, compare, holds, locate_near};
use std::alloc::Allocator;

impl<A: Allocator> Cache<A> {
    ghost use Rattle.nd_neighbour.specs.History.{Row};
    ghost use Rattle.nd_neighbour.specs.TableKept.{Stands};
    ghost use Rattle.nd_neighbour.specs.Room.{HasRoom};

    /// Returns true if there is room for a neighbour, which may be new, and after a use of it for a second one: neither would be refused as `Full`.
    /// If so, there is room for the second one after `used` of the first.
    #[inline(always)]
    pub fn room(&self, now: u64, addr: Addr, then: Option<Addr>) -> bool
        ensures value { result ≡ has_room self.now.limit now (number_of addr.0) (option_map (λ next. number_of next.0) then) self.now.entries }
        ensures history { (history : List Row) → Stands self.now.entries history → result ≡ true ↔ HasRoom self.now.limit now (number_of addr.0) (option_map (λ next. number_of next.0) then) history }
    {
        has_room(&self.entries, self.limit, now, addr, then, self.near)
    }
}

/// Returns true if there is an entry of an address. It is looked for at place `near` first.
fn holds_near<A: Allocator>(entries: &[Entry<A>], addr: Addr, near: usize) -> bool
    requires { Rises entries.now }
    ensures { result ≡ is_some (entry_in (number_of addr.0) entries.now) }
{
    match locate_near(entries, addr, near) {
        Ok(_) => true,
        Err(_) => false,
    }
}

/// Returns true if there is room for a neighbour, and after a use of it for a second one. The neighbour is looked for at place `near` first.
fn has_room<A: Allocator>(
    entries: &[Entry<A>],
    limit: usize,
    now: u64,
    addr: Addr,
    then: Option<Addr>,
    near: usize,
) -> bool
    requires { Rises entries.now }
    ensures { result ≡ has_room limit now (number_of addr.0) (option_map (λ next. number_of next.0) then) entries.now }
{
    match then {
        // Mostly the table isn't full, and the neighbour need not be looked for.
        None => {
            entries.len() < limit
                || holds_near(entries, addr, near)
                || has_place(entries, limit, now)
        }
        Some(next) if holds_near(entries, addr, near) => place_beside(
            entries, limit, now, addr, next,
        ),
        Some(next) => {
            has_place(entries, limit, now) && place_behind(entries, limit, now, addr, next)
        }
    }
}

/// Returns true if there is room for a second neighbour after a use of one that has an entry.
fn place_beside<A: Allocator>(
    entries: &[Entry<A>],
    limit: usize,
    now: u64,
    used: Addr,
    next: Addr,
) -> bool
    requires { Rises entries.now }
    ensures { result ≡ place_beside limit now (number_of used.0) (number_of next.0) entries.now }
{
    holds(entries, next) || entries.len() < limit || stays_stale(entries, used, now)
}

/// Returns true if there is room for a second neighbour after one that enters.
fn place_behind<A: Allocator>(
    entries: &[Entry<A>],
    limit: usize,
    now: u64,
    entering: Addr,
    next: Addr,
) -> bool
    requires { Rises entries.now }
    ensures { result ≡ place_behind limit now (number_of entering.0) (number_of next.0) entries.now (stalest now entries.now) }
{
    match stalest(entries, now) {
        None => {
            compare(entering, next).is_eq()
                || holds(entries, next)
                || entries.len() < limit.saturating_sub(1)
        }
        Some(i) => entries.len() < limit || place_without(entries, i, now, entering, next),
    }
}

/// Returns true if there is room for a second neighbour after one that enters, for which the entry at place `i` is evicted.
fn place_without<A: Allocator>(
    entries: &[Entry<A>],
    i: usize,
    now: u64,
    entering: Addr,
    next: Addr,
) -> bool
    requires within { i < length entries.now }
    requires order { Rises entries.now }
    ensures { (gone : NeighbourEntry) → slice_get entries.now i ≡ Some gone → result ≡ place_without gone now (number_of entering.0) (number_of next.0) entries.now }
{
    let gone = entries[i].addr();
    compare(entering, next).is_eq()
        || (!compare(gone, next).is_eq() && holds(entries, next))
        || stale_beside(entries, gone, now)
}

/// Returns true if an entry is STALE after a use of this one. A use before the moment at which it became stale leaves it so.
fn stays_stale<A: Allocator>(entries: &[Entry<A>], used: Addr, now: u64) -> bool
    ensures { result ≡ list_any (stays_stale (number_of used.0) now) entries.now }
{
    for entry in entries {
        if entry.is_stale(now) && (is_other(entry, used) || now < entry.since()) {
            return true;
        }
    }
    false
}

/// Returns true if an entry other than that of this address is STALE.
fn stale_beside<A: Allocator>(entries: &[Entry<A>], gone: Addr, now: u64) -> bool
    ensures { result ≡ list_any (stale_beside (number_of gone.0) now) entries.now }
{
    for entry in entries {
        if entry.is_stale(now) && is_other(entry, gone) {
            return true;
        }
    }
    false
}

/// Returns true if an entry is of another address.
fn is_other<A: Allocator>(entry: &Entry<A>, addr: Addr) -> bool
    ensures { result ≡ not (entry.now.key == number_of addr.0) }
{
    compare(entry.addr(), addr).is_ne()
}
