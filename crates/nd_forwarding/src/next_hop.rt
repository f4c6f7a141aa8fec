//! The next hop of a router's packet (RFC 4861, section 5.2). The definitions are in `specs/NextHop.antt`.

ghost use Rattle.std.specs.Prelude.{◌≡◌, ℕ, Bool, List};
ghost use Rattle.nd_addr.specs.Kind.{link_local_subnet};
ghost use Rattle.nd_addr.specs.Number.{holds};
ghost use Rattle.nd_nexthop.specs.NextHop.{is_own_or_none};
ghost use Rattle.nd_nexthop.specs.NextHopKept.{hop_of};
ghost use Rattle.nd_forwarding.specs.History.{Row};
ghost use Rattle.nd_forwarding.specs.NextHop.{hop, hop_by, by_route};
ghost use Rattle.nd_forwarding.specs.Routes.{routes};
ghost use Rattle.nd_forwarding.specs.Table.{Stands};

use crate::route::Route;
use crate::routes::Routes;
use nd_addr::{Addr, Prefix};
use nd_nexthop::Hop;
use std::alloc::Allocator;

impl<A: Allocator> Routes<A> {
    /// Returns the next hop of a packet (RFC 4861, section 5.2). `is_own`: its destination is one of the node's own addresses.
    pub fn next_hop(&self, destination: Addr, is_own: bool) -> Hop
        ensures value { (own : List ℕ → Bool) → own destination.0 ≡ is_own → hop_of result ≡ hop own self.now.entries destination.0 }
        ensures by_history { (own : List ℕ → Bool) → own destination.0 ≡ is_own → (history : List Row) → Stands self.now history → hop_of result ≡ hop own (routes history) destination.0 }
    {
        determine(destination, is_own, self.look(destination))
    }
}

/// Returns the next hop of a packet; `route` is the longest route to its destination.
fn determine(destination: Addr, is_own: bool, route: Option<Route>) -> Hop
    ensures { (own : List ℕ → Bool) → own destination.0 ≡ is_own → hop_of result ≡ hop_by own route destination.0 }
{
    if is_own_or_none(destination, is_own) {
        return Hop::NoRoute;
    }
    if destination.is_multicast() || is_in_link_local_subnet(destination) {
        return Hop::Direct;
    }
    by_route(route)
}

/// Returns true if nothing is sent to an address, since it is unspecified, the loopback address or one of the node's own.
fn is_own_or_none(destination: Addr, is_own: bool) -> bool
    ensures { (own : List ℕ → Bool) → own destination.0 ≡ is_own → result ≡ is_own_or_none own destination.0 }
{
    destination.is_unspecified() || destination.is_loopback() || is_own
}

/// Returns true if an address is in fe80::/64, which is on the link (RFC 4291, section 2.5.6).
fn is_in_link_local_subnet(destination: Addr) -> bool
    ensures { result ≡ holds link_local_subnet destination.0 }
{
    Prefix::link_local_subnet().holds(destination)
}

/// Returns the next hop by a route, if there is one.
fn by_route(route: Option<Route>) -> Hop
    ensures { hop_of result ≡ by_route route }
{
    match route {
        Some(Route::Direct) => Hop::Direct,
        Some(Route::Via(router)) => Hop::Via(router),
        None => Hop::NoRoute,
    }
}
