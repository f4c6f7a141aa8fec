//! What becomes of a packet in transit (RFC 8200, section 3). The definitions are in `specs/Forward.antt`.

ghost use Rattle.std.specs.Prelude.{◌≡◌, ℕ, Bool, List};
ghost use Rattle.nd_nexthop.specs.NextHopKept.{hop_of};
ghost use Rattle.nd_forwarding.specs.Forward.{fate, fate_by, may_be_forwarded, stays};
ghost use Rattle.nd_forwarding.specs.ForwardKept.{fate_of};
ghost use Rattle.nd_forwarding.specs.History.{Row};
ghost use Rattle.nd_forwarding.specs.Routes.{routes};
ghost use Rattle.nd_forwarding.specs.Table.{Stands};

use crate::routes::Routes;
use nd_addr::{Addr, Ip6};
use nd_nexthop::Hop;
use std::alloc::Allocator;

/// The least hop limit of a packet that is sent on: it is decremented, and must not become zero (RFC 8200, section 3).
const LEAST_HOP_LIMIT: u8 = 2;

/// What becomes of a packet in transit.
#[derive(Clone, Copy, Debug, PartialEq, Eq)]
pub enum Fate {
    /// It is sent to its destination, which is on the link.
    Direct,
    /// It is sent to the router of this address.
    Via(Addr),
    /// It is lost, since there is no route to its destination.
    NoRoute,
    /// It is lost, since its hop limit doesn't allow another hop.
    HopLimit,
}

/// Returns true if a packet may be forwarded: neither its source nor its destination is link-local, unspecified, loopback (RFC 4291, sections
/// 2.5.6, 2.5.2 and 2.5.3) or multicast, which is our choice.
pub fn may_be_forwarded(header: &Ip6) -> bool
    ensures { result ≡ may_be_forwarded header.now }
{
    !(stays(header.source) || stays(header.destination))
}

/// Returns true if packets from and to an address stay on their link.
fn stays(address: Addr) -> bool
    ensures { result ≡ stays address.0 }
{
    address.is_multicast()
        || address.is_link_local()
        || address.is_unspecified()
        || address.is_loopback()
}

impl<A: Allocator> Routes<A> {
    /// Returns what becomes of a packet that may be forwarded. `is_own`: its destination is one of the node's own addresses.
    pub fn forward(&self, header: &Ip6, is_own: bool) -> Fate
        ensures value { (own : List ℕ → Bool) → own header.now.destination.0 ≡ is_own → fate_of result ≡ fate own self.now.entries header.now }
        ensures by_history { (own : List ℕ → Bool) → own header.now.destination.0 ≡ is_own → (history : List Row) → Stands self.now history → fate_of result ≡ fate own (routes history) header.now }
    {
        fate_by(header.hop_limit, self.next_hop(header.destination, is_own))
    }
}

/// Returns what becomes of a packet with this hop limit and this next hop.
fn fate_by(hop_limit: u8, hop: Hop) -> Fate
    ensures { fate_of result ≡ fate_by hop_limit (hop_of hop) }
{
    match hop {
        Hop::NoRoute => Fate::NoRoute,
        _ if hop_limit < LEAST_HOP_LIMIT => Fate::HopLimit,
        Hop::Direct => Fate::Direct,
        Hop::Via(router) => Fate::Via(router),
    }
}
