//! The limits of a node's tables, chosen when the node is made. Their definition is in `specs/Limits.antt`.

ghost use Rattle.std.specs.Prelude.{true, ◌↔◌, ◌≡◌, ◌≤◌};
ghost use Rattle.std.specs.Option.{SomeIff};
ghost use Rattle.nd_neighbour.specs.TableKept.{max_neighbours};
ghost use Rattle.nd_routers.specs.Routers.{max_routers};
ghost use Rattle.nd_routers.specs.OnLinkPrefixes.{max_prefixes};
ghost use Rattle.nd_slaac.specs.Room.{max_addresses};
ghost use Rattle.nd_dns.specs.Dns.{max_names, max_servers};
ghost use Rattle.nd_nexthop.specs.History.{max_redirects};
ghost use Rattle.nd_nexthop.specs.Memo.{max_remembered};
ghost use Rattle.nd_advertiser.specs.Offers.{max_offers};
ghost use Rattle.nd_forwarding.specs.Routes.{max_routes};
ghost use Rattle.nd_packet.specs.Waiting.{max_waiting};
ghost use Rattle.nd_node.specs.Limits.{IsLimit, usual_limits};

use nd_advertiser::MAX_OFFERS;
use nd_dns::{MAX_NAMES, MAX_SERVERS};
use nd_forwarding::MAX_ROUTES;
use nd_neighbour::MAX_NEIGHBOURS;
use nd_nexthop::{MAX_REDIRECTS, MAX_REMEMBERED};
use nd_packet::MAX_WAITING;
use nd_routers::{MAX_PREFIXES, MAX_ROUTERS};
use nd_slaac::MAX_ADDRESSES;
use std::marker::Model;

/// The usual limit on neighbours (our choice).
pub const USUAL_NEIGHBOURS: u16 = 512;

/// The usual limit on default routers (our choice).
pub const USUAL_ROUTERS: u8 = 16;

/// The usual limit on packets that wait for one neighbour (our choice).
pub const USUAL_WAITING: u16 = 3;

/// The most rows that each table of a node has, and the most packets that wait for one neighbour. The RFCs leave the numbers open; the ranges are our
/// choice.
#[derive(Clone, Copy, Debug, PartialEq, Eq)]
pub struct Limits {
    neighbours: u16,
    routers: u16,
    prefixes: u16,
    addresses: u16,
    servers: u16,
    names: u16,
    redirects: u16,
    destinations: u16,
    offers: u16,
    routes: u16,
    waiting: u16,
}

impl Model for Limits {
    ghost use Rattle.nd_chronicle.specs.Start.{Limits};
    ghost use Rattle.nd_node.specs.Limits.{AreLimits};

    ghost Value = { Limits };

    ghost view = { λ l. record { neighbours = l.neighbours; routers = l.routers; prefixes = l.prefixes; addresses = l.addresses; servers = l.servers; names = l.names; redirects = l.redirects; destinations = l.destinations; offers = l.offers; routes = l.routes; waiting = l.waiting } };

    ghost invariant = { λ l. AreLimits (record { neighbours = l.neighbours; routers = l.routers; prefixes = l.prefixes; addresses = l.addresses; servers = l.servers; names = l.names; redirects = l.redirects; destinations = l.destinations; offers = l.offers; routes = l.routes; waiting = l.waiting }) };

    ghost inverse = { λ v. record { neighbours = v.neighbours; routers = v.routers; prefixes = v.prefixes; addresses = v.addresses; servers = v.servers; names = v.names; redirects = v.redirects; destinations = v.destinations; offers = v.offers; routes = v.routes; waiting = v.waiting } };
}

impl Limits {
    /// Returns the usual limits with these on neighbours, 1 to 2048, and default routers, 1 to 64, or `None` if one of them is outside its range.
    pub fn new(neighbours: u16, routers: u8) -> Option<Limits>
        ensures { SomeIff result (IsLimit max_neighbours neighbours × IsLimit max_routers routers) (record usual_limits { neighbours = neighbours; routers = routers }) }
    {
        Limits::usual()
            .with_neighbours(neighbours)?
            .with_routers(u16::from(routers))
    }

    /// Returns the usual limits: 512 neighbours, 16 default routers, three packets that wait for a neighbour, and of all else the most. Each node on
    /// a link has them, and any other node by default.
    pub fn usual() -> Limits
        ensures { result ≡ usual_limits }
    {
        Limits {
            neighbours: USUAL_NEIGHBOURS,
            routers: u16::from(USUAL_ROUTERS),
            prefixes: MAX_PREFIXES as u16,
            addresses: MAX_ADDRESSES as u16,
            servers: MAX_SERVERS as u16,
            names: MAX_NAMES as u16,
            redirects: MAX_REDIRECTS as u16,
            destinations: MAX_REMEMBERED as u16,
            offers: MAX_OFFERS as u16,
            routes: MAX_ROUTES as u16,
            waiting: USUAL_WAITING,
        }
    }

    /// Returns these limits with this one on neighbours (RFC 4861, section 5.3), or `None` outside 1 to 2048.
    pub fn with_neighbours(self, neighbours: u16) -> Option<Limits>
        ensures { SomeIff result (IsLimit max_neighbours neighbours) (record self { neighbours = neighbours }) }
    {
        if !is_limit(neighbours, MAX_NEIGHBOURS) {
            return None;
        }
        Some(Limits { neighbours, ..self })
    }

    /// Returns these limits with this one on default routers (RFC 4861, section 6.3.4), or `None` outside 1 to 64.
    pub fn with_routers(self, routers: u16) -> Option<Limits>
        ensures { SomeIff result (IsLimit max_routers routers) (record self { routers = routers }) }
    {
        if !is_limit(routers, MAX_ROUTERS) {
            return None;
        }
        Some(Limits { routers, ..self })
    }

    /// Returns these limits with this one on prefixes on the link (RFC 4861, section 5.1), or `None` outside 1 to 64.
    pub fn with_prefixes(self, prefixes: u16) -> Option<Limits>
        ensures { SomeIff result (IsLimit max_prefixes prefixes) (record self { prefixes = prefixes }) }
    {
        if !is_limit(prefixes, MAX_PREFIXES) {
            return None;
        }
        Some(Limits { prefixes, ..self })
    }

    /// Returns these limits with this one on addresses of its own, the link-local one included (RFC 4862, section 5.3), or `None` outside 1 to 64.
    pub fn with_addresses(self, addresses: u16) -> Option<Limits>
        ensures { SomeIff result (IsLimit max_addresses addresses) (record self { addresses = addresses }) }
    {
        if !is_limit(addresses, MAX_ADDRESSES) {
            return None;
        }
        Some(Limits { addresses, ..self })
    }

    /// Returns these limits with this one on DNS servers (RFC 8106, section 5.3.1), or `None` outside 1 to 32.
    pub fn with_servers(self, servers: u16) -> Option<Limits>
        ensures { SomeIff result (IsLimit max_servers servers) (record self { servers = servers }) }
    {
        if !is_limit(servers, MAX_SERVERS) {
            return None;
        }
        Some(Limits { servers, ..self })
    }

    /// Returns these limits with this one on search names (RFC 8106, section 5.3.1), or `None` outside 1 to 32.
    pub fn with_names(self, names: u16) -> Option<Limits>
        ensures { SomeIff result (IsLimit max_names names) (record self { names = names }) }
    {
        if !is_limit(names, MAX_NAMES) {
            return None;
        }
        Some(Limits { names, ..self })
    }

    /// Returns these limits with this one on destinations whose redirects are kept (RFC 4861, section 8.3), or `None` outside 1 to 64.
    pub fn with_redirects(self, redirects: u16) -> Option<Limits>
        ensures { SomeIff result (IsLimit max_redirects redirects) (record self { redirects = redirects }) }
    {
        if !is_limit(redirects, MAX_REDIRECTS) {
            return None;
        }
        Some(Limits { redirects, ..self })
    }

    /// Returns these limits with this one on destinations whose next hops are remembered (RFC 4861, section 5.1), or `None` outside 1 to 256.
    pub fn with_destinations(self, destinations: u16) -> Option<Limits>
        ensures { SomeIff result (IsLimit max_remembered destinations) (record self { destinations = destinations }) }
    {
        if !is_limit(destinations, MAX_REMEMBERED) {
            return None;
        }
        Some(Limits {
            destinations,
            ..self
        })
    }

    /// Returns these limits with this one on prefixes that a router advertises (RFC 4861, section 6.2.1), or `None` outside 1 to 16.
    pub fn with_offers(self, offers: u16) -> Option<Limits>
        ensures { SomeIff result (IsLimit max_offers offers) (record self { offers = offers }) }
    {
        if !is_limit(offers, MAX_OFFERS) {
            return None;
        }
        Some(Limits { offers, ..self })
    }

    /// Returns these limits with this one on static routes of a router (RFC 4861, section 5.2), or `None` outside 1 to 64.
    pub fn with_routes(self, routes: u16) -> Option<Limits>
        ensures { SomeIff result (IsLimit max_routes routes) (record self { routes = routes }) }
    {
        if !is_limit(routes, MAX_ROUTES) {
            return None;
        }
        Some(Limits { routes, ..self })
    }

    /// Returns these limits with this one on packets that wait for the link-layer address of one neighbour (RFC 4861, section 7.2.2), or `None` outside 1 to 8.
    pub fn with_waiting(self, waiting: u16) -> Option<Limits>
        ensures { SomeIff result (IsLimit max_waiting waiting) (record self { waiting = waiting }) }
    {
        if !is_limit(waiting, MAX_WAITING) {
            return None;
        }
        Some(Limits { waiting, ..self })
    }

    /// Returns the limit on neighbours.
    pub fn neighbours(self) -> usize
        ensures value { result ≡ self.neighbours }
        ensures least { 1 ≤ result }
        ensures most { result ≤ max_neighbours }
    {
        usize::from(self.neighbours)
    }

    /// Returns the limit on default routers.
    pub fn routers(self) -> usize
        ensures value { result ≡ self.routers }
        ensures least { 1 ≤ result }
        ensures most { result ≤ max_routers }
    {
        usize::from(self.routers)
    }

    /// Returns the limit on prefixes on the link.
    pub fn prefixes(self) -> usize
        ensures value { result ≡ self.prefixes }
        ensures least { 1 ≤ result }
        ensures most { result ≤ max_prefixes }
    {
        usize::from(self.prefixes)
    }

    /// Returns the limit on addresses of its own, the link-local one included.
    pub fn addresses(self) -> usize
        ensures value { result ≡ self.addresses }
        ensures least { 1 ≤ result }
        ensures most { result ≤ max_addresses }
    {
        usize::from(self.addresses)
    }

    /// Returns the limit on DNS servers.
    pub fn servers(self) -> usize
        ensures value { result ≡ self.servers }
        ensures least { 1 ≤ result }
        ensures most { result ≤ max_servers }
    {
        usize::from(self.servers)
    }

    /// Returns the limit on search names.
    pub fn names(self) -> usize
        ensures value { result ≡ self.names }
        ensures least { 1 ≤ result }
        ensures most { result ≤ max_names }
    {
        usize::from(self.names)
    }

    /// Returns the limit on destinations whose redirects are kept.
    pub fn redirects(self) -> usize
        ensures value { result ≡ self.redirects }
        ensures least { 1 ≤ result }
        ensures most { result ≤ max_redirects }
    {
        usize::from(self.redirects)
    }

    /// Returns the limit on destinations whose next hops are remembered.
    pub fn destinations(self) -> usize
        ensures value { result ≡ self.destinations }
        ensures least { 1 ≤ result }
        ensures most { result ≤ max_remembered }
    {
        usize::from(self.destinations)
    }

    /// Returns the limit on prefixes that a router advertises.
    pub fn offers(self) -> usize
        ensures value { result ≡ self.offers }
        ensures least { 1 ≤ result }
        ensures most { result ≤ max_offers }
    {
        usize::from(self.offers)
    }

    /// Returns the limit on static routes of a router.
    pub fn routes(self) -> usize
        ensures value { result ≡ self.routes }
        ensures least { 1 ≤ result }
        ensures most { result ≤ max_routes }
    {
        usize::from(self.routes)
    }

    /// Returns the limit on packets that wait for the link-layer address of one neighbour.
    pub fn waiting(self) -> usize
        ensures value { result ≡ self.waiting }
        ensures least { 1 ≤ result }
        ensures most { result ≤ max_waiting }
    {
        usize::from(self.waiting)
    }
}

/// Returns true if a number is 1 at least, and at most the greatest limit.
fn is_limit(number: u16, most: usize) -> bool
    ensures { result ≡ true ↔ IsLimit most number }
{
    1 <= number && usize::from(number) <= most
}
