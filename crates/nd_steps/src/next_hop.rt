//! The next hop of a packet, from the tables of a node (RFC 4861, sections 5.2 and 6.3.6).

ghost use Rattle.std.specs.Prelude.{◌≡◌, ◌↔◌, true};
ghost use Rattle.nd_addr.specs.Number.{number_of};
ghost use Rattle.nd_neighbour.specs.TableKept.{entry_in};
ghost use Rattle.nd_steps.specs.NextHop.{is_resolved};
ghost use Rattle.nd_nexthop.specs.NextHop.{via};
ghost use Rattle.nd_nexthop.specs.NextHopKept.{hop_of};

use nd_addr::Addr;
use nd_neighbour::Cache;
use nd_nexthop::{Candidate, Hop, View};
use nd_routers::{Prefixes, Routers};
use nd_slaac::{Addresses, Counted};
use nd_table::compare;
use std::alloc::Allocator;

/// Returns true if a neighbour is in any state other than INCOMPLETE.
fn is_resolved<A: Allocator>(neighbours: &Cache<A>, addr: Addr) -> bool
    ensures { result ≡ is_resolved (entry_in (number_of addr.0) neighbours.now.entries) }
{
    match neighbours.get(addr) {
        Some(neighbour) => neighbour.is_known(),
        None => false,
    }
}

/// The tables of a node at a moment, as the choice of a next hop sees them.
#[derive(Drop)]
pub struct Tables<'a, A: Allocator> {
    /// The moment, in milliseconds.
    pub now: u64,
    /// The default routers (RFC 4861, section 5.1).
    pub routers: &'a Routers<A>,
    /// The prefixes on the link (RFC 4861, section 5.1).
    pub prefixes: &'a Prefixes<A>,
    /// The node's own addresses (RFC 4862, section 5).
    pub addresses: &'a Addresses<A>,
    /// The neighbours (RFC 4861, section 5.1).
    pub neighbours: &'a Cache<A>,
}

impl<A: Allocator> View for Tables<'_, A> {
    ghost use Rattle.nd_addr.specs.Number.{number_of};
    ghost use Rattle.nd_table.specs.Listing.{open_at};
    ghost use Rattle.nd_routers.specs.OnLink.{is_held};
    ghost use Rattle.nd_slaac.specs.declared.destination.Counted.TheVariants.{Own};
    ghost use Rattle.nd_slaac.specs.Destination.{counted_in};
    ghost use Rattle.nd_slaac.specs.TableKept.{address_in};
    ghost use Rattle.nd_steps.specs.NextHop.{candidates_in};

    ghost own = { λ t address. counted_in Own (address_in (number_of address) t.addresses.now.addresses) };

    ghost linked = { λ t address. is_held address (open_at t.now t.prefixes.now.entries) };

    ghost candidates = { λ t. candidates_in t.neighbours.now.entries t.routers.now };

    fn is_own(&self, addr: Addr) -> bool {
        self.addresses.counts(Counted::Own, addr)
    }

    fn on_link(&self, addr: Addr) -> bool {
        self.prefixes.on_link(self.now, addr)
    }

    fn routers(&self) -> usize {
        self.routers.len()
    }

    fn router(&self, i: usize) -> Option<Candidate> {
        match self.routers.at(i) {
            Some(listed) => Some(Candidate {
                addr: listed.addr,
                usable: is_resolved(self.neighbours, listed.addr),
                preference: listed.preference,
                failed: listed.failed,
            }),
            None => None,
        }
    }
}

/// Returns true if a next hop is this node on the link, and not the destination itself (RFC 4861, section 8.1).
pub fn is_via(hop: Hop, addr: Addr) -> bool
    ensures { result ≡ true ↔ (hop_of hop ≡ via (number_of addr.0)) }
{
    match hop {
        Hop::Via(router) => compare(router, addr).is_eq(),
        Hop::Direct | Hop::NoRoute => false,
    }
}
