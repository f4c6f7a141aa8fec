//! The addresses for which a packet is received (RFC 4291, section 2.8). The definitions are in `specs/Destination.antt`.

ghost use Rattle.std.specs.Prelude.{◌≡◌, ◌↔◌, List, true};
ghost use Rattle.std.specs.List.{list_any};
ghost use Rattle.nd_addr.specs.Kind.{solicited_node_of};
ghost use Rattle.nd_addr.specs.Number.{number_of};
ghost use Rattle.nd_table.specs.Keyed.{Rises};
ghost use Rattle.nd_slaac.specs.TableKept.{address_in, key_of};
ghost use Rattle.nd_slaac.specs.Destination.{counted_in, end_alike, is_asked, is_to};

use crate::addresses::Addresses;
use crate::entry::Entry;
use crate::stage::Stage;
use nd_addr::Addr;
use nd_table::{Addressed, find};
use std::alloc::Allocator;

/// Which of the node's own addresses count for a received packet.
#[derive(Clone, Copy, Debug, PartialEq, Eq)]
pub enum Counted {
    /// The tentative and the assigned ones.
    Own,
    /// The assigned ones alone: preferred or deprecated.
    Assigned,
}

impl<A: Allocator> Addresses<A> {
    ghost use Rattle.nd_slaac.specs.History.{Row, story};
    ghost use Rattle.nd_slaac.specs.TableKept.{Stands, address_in};
    ghost use Rattle.nd_slaac.specs.Destination.{counts, counted_in, IsTo};

    /// Returns true if an address is one of the node's own and counts.
    pub fn counts(&self, counted: Counted, addr: Addr) -> bool
        ensures value { result ≡ counted_in counted (address_in (number_of addr.0) self.now.addresses) }
        ensures by_history { (history : List Row) → Stands self.now.addresses history → result ≡ counts counted (story (number_of addr.0) history) }
    {
        entry_counts(&self.entries, counted, addr)
    }

    /// Returns true if a destination is one of the node's own addresses that counts, or the solicited-node address of one (RFC 4291, section
    /// 2.8).
    pub fn is_to(&self, counted: Counted, destination: Addr) -> bool
        ensures { (history : List Row) → Stands self.now.addresses history → result ≡ true ↔ IsTo counted history destination }
    {
        nd_addr::laws::addresses_are_told_by_numbers();
        any_is_to(&self.entries, counted, destination)
    }
}

/// Returns true if an address has an entry that counts. The last entry is looked at first: the link-local address is asked for most, and no other unicast
/// address in use has a greater number.
#[inline(always)]
fn entry_counts(entries: &[Entry], counted: Counted, addr: Addr) -> bool
    requires { Rises key_of entries.now }
    ensures { result ≡ counted_in counted (address_in (number_of addr.0) entries.now) }
{
    match entries.last() {
        Some(last) if last.addr() == addr => last.counts(counted),
        _ => any_entry_counts(entries, counted, addr),
    }
}

/// Returns the same by a search.
fn any_entry_counts(entries: &[Entry], counted: Counted, addr: Addr) -> bool
    requires { Rises key_of entries.now }
    ensures { result ≡ counted_in counted (address_in (number_of addr.0) entries.now) }
{
    match find(entries, addr) {
        Some(i) => entries[i].counts(counted),
        None => false,
    }
}

/// Returns true if an entry counts for a destination: it is the destination, or the destination is its solicited-node address. Only a destination
/// in ff02::1:ff00:0/104 is compared with all entries.
fn any_is_to(entries: &[Entry], counted: Counted, destination: Addr) -> bool
    requires { Rises key_of entries.now }
    ensures { result ≡ list_any (is_to counted destination) entries.now }
{
    nd_addr::laws::addresses_are_told_by_numbers();
    let _bytes = destination.as_bytes();
    // Most multicast messages are solicitations, whose destination is the solicited-node address of one of a few.
    any_is_asked(entries, counted, destination) || entry_counts(entries, counted, destination)
}

/// Returns true if the destination is the solicited-node address of an entry that counts.
fn any_is_asked(entries: &[Entry], counted: Counted, destination: Addr) -> bool
    ensures { result ≡ list_any (is_asked counted destination) entries.now }
{
    destination == destination.solicited_node() && any_ends_alike(entries, counted, destination)
}

/// Returns true if an entry that counts ends in the 24 bits of this solicited-node address.
fn any_ends_alike(entries: &[Entry], counted: Counted, destination: Addr) -> bool
    requires { destination.0 ≡ solicited_node_of destination.0 }
    ensures { result ≡ list_any (is_asked counted destination) entries.now }
{
    for entry in entries {
        if entry.is_asked(counted, destination) {
            return true;
        }
    }
    false
}

/// Returns true if two addresses have the same last three bytes.
fn end_alike(a: Addr, b: Addr) -> bool
    ensures { result ≡ end_alike a.0 b.0 }
{
    a.0[13] == b.0[13] && a.0[14] == b.0[14] && a.0[15] == b.0[15]
}

impl Entry {
    ghost use Rattle.nd_slaac.specs.Destination.{counts_in, is_asked};

    /// Returns true if it counts: a duplicate never does.
    fn counts(&self, counted: Counted) -> bool
        ensures { result ≡ counts_in counted self.now.stage }
    {
        match self.stage {
            Stage::Detecting { .. } => matches!(counted, Counted::Own),
            Stage::Failed => false,
            Stage::Passed => true,
        }
    }

    /// Returns true if it counts and the destination is its solicited-node address.
    fn is_asked(&self, counted: Counted, destination: Addr) -> bool
        requires { destination.0 ≡ solicited_node_of destination.0 }
        ensures { result ≡ is_asked counted destination self.now }
    {
        nd_addr::laws::addresses_are_told_by_numbers();
        let _bytes = self.addr.as_bytes();
        self.counts(counted) && end_alike(self.addr, destination)
    }
}
