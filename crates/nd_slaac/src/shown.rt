//! What is shown of addresses (RFC 4862, section 2). The definitions are in `specs/Shown.antt`.

ghost use Rattle.std.specs.Prelude.{◌≡◌, List, map};
ghost use Rattle.std.specs.Option.{option_map};
ghost use Rattle.nd_addr.specs.Number.{number_of};
ghost use Rattle.nd_table.specs.Keyed.{Rises};
ghost use Rattle.nd_slaac.specs.TableKept.{address_in, key_of};
ghost use Rattle.nd_slaac.specs.ShownKept.{state_at};

use crate::addresses::Addresses;
use crate::entry::Entry;
use crate::state::State;
use nd_addr::Addr;
use nd_table::find;
use std::alloc::Allocator;

/// An address of the interface, as it is shown at a moment.
#[derive(Clone, Copy, Debug, PartialEq, Eq)]
pub struct ShownAddress {
    pub addr: Addr,
    pub state: State,
    /// What is left of its preferred lifetime, in milliseconds: 0 if it has ended, and `None` if it has no end.
    pub preferred_left: Option<u64>,
    /// What is left of its valid lifetime, in milliseconds, in the same way.
    pub valid_left: Option<u64>,
    /// True if it was given by hand: no advertisement renews it (RFC 4862, section 5.5.3 e).
    pub by_hand: bool,
}

impl<A: Allocator> Addresses<A> {
    ghost use Rattle.nd_slaac.specs.History.{Row, story};
    ghost use Rattle.nd_slaac.specs.State.{state_of, is_duplicate};
    ghost use Rattle.nd_slaac.specs.TableKept.{Stands, address_in};
    ghost use Rattle.nd_slaac.specs.ShownKept.{state_at};

    /// Returns the state of an address at `now`, in milliseconds, if it is known (RFC 4862, section 2).
    pub fn state(&self, now: u64, addr: Addr) -> Option<State>
        ensures value { result ≡ option_map (state_at now) (address_in (number_of addr.0) self.now.addresses) }
        ensures state { (history : List Row) → Stands self.now.addresses history → result ≡ state_of (story (number_of addr.0) history) now }
    {
        show(&self.entries, now, addr)
    }

    /// Returns true if an address is a duplicate (RFC 4862, section 5.4.5).
    pub fn is_duplicate(&self, addr: Addr) -> bool
        ensures { (history : List Row) → Stands self.now.addresses history → result ≡ is_duplicate (story (number_of addr.0) history) }
    {
        matches!(self.state(0, addr), Some(State::Duplicate))
    }
}

impl<A: Allocator> Addresses<A> {
    ghost use Rattle.nd_slaac.specs.History.{Row};
    ghost use Rattle.nd_slaac.specs.TableKept.{Stands};
    ghost use Rattle.nd_slaac.specs.Shown.{Lists};
    ghost use Rattle.nd_slaac.specs.ShownKept.{seen};
    ghost use Rattle.nd_slaac.specs.Left.{addresses_left};

    /// Returns all addresses as they are at `now`, in milliseconds, in the order of their numbers. It takes no memory.
    pub fn rows(&self, now: u64) -> ShownAddresses<'_>
        ensures value { addresses_left result ≡ map (seen now) self.now.addresses }
        ensures lists { (history : List Row) → Stands self.now.addresses history → Lists history now (addresses_left result) }
    {
        ShownAddresses::new(&self.entries, now)
    }
}

/// The addresses of the interface as they are at a moment, in the order of their numbers.
#[derive(Clone, Copy)]
pub struct ShownAddresses<'a> {
    rest: &'a [Entry],
    moment: u64,
}

impl<'a> ShownAddresses<'a> {
    ghost use Rattle.nd_slaac.specs.ShownKept.{seen};
    ghost use Rattle.nd_slaac.specs.Left.{addresses_left};

    /// Returns the addresses of all entries, as they are at a moment, in milliseconds.
    fn new(entries: &'a [Entry], moment: u64) -> Self
        ensures { addresses_left result ≡ map (seen moment) entries.entry.now }
    {
        ShownAddresses {
            rest: entries,
            moment,
        }
    }
}

impl Iterator for ShownAddresses<'_> {
    type Item = ShownAddress;

    ghost use Rattle.std.specs.Iterator.{YieldsFirstBy, item_count};
    ghost use Rattle.nd_slaac.specs.Left.{addresses_left};
    ghost use Rattle.nd_slaac.specs.View.{seen_in};

    ghost next_gives = { YieldsFirstBy seen_in addresses_left };

    ghost remaining = { item_count addresses_left };

    fn next(&mut self) -> Option<ShownAddress> {
        let (first, rest) = self.rest.split_first()?;
        self.rest = rest;
        Some(first.shown(self.moment))
    }
}

/// Returns the state of an address at `now`, in milliseconds, if it has an entry.
pub(crate) fn show(entries: &[Entry], now: u64, addr: Addr) -> Option<State>
    requires { Rises key_of entries.now }
    ensures { result ≡ option_map (state_at now) (address_in (number_of addr.0) entries.now) }
{
    match find(entries, addr) {
        Some(i) => Some(entries[i].state(now)),
        None => None,
    }
}
