//! What a node knows, as typed values: an iterator for each table, and look-ups. None of them changes anything or takes memory. `now` is in
//! milliseconds, and not before the node's last moment; what is due up to it should be done, since only an event does it.

ghost use Rattle.std.specs.Prelude.{◌≡◌, ◌<◌, ◌≤◌};
ghost use Rattle.std.specs.Option.{option_map};
ghost use Rattle.nd_addr.specs.Number.{number_of};
ghost use Rattle.nd_addr.specs.Same.{same_addr, same_prefix};
ghost use Rattle.nd_table.specs.Left.{lifetimes_left};
ghost use Rattle.nd_table.specs.Shown.{Shows};
ghost use Rattle.nd_neighbour.specs.History as neighbour_rows;
ghost use Rattle.nd_neighbour.specs.Left.{neighbours_left};
ghost use Rattle.nd_neighbour.specs.Shown as neighbours;
ghost use Rattle.nd_neighbour.specs.ShownKept.{seen};
ghost use Rattle.nd_neighbour.specs.TableKept.{entry_in};
ghost use Rattle.nd_neighbour.specs.View as neighbour_view;
ghost use Rattle.nd_slaac.specs.Left.{addresses_left};
ghost use Rattle.nd_slaac.specs.Shown as addresses;
ghost use Rattle.nd_routers.specs.Left.{routers_left};
ghost use Rattle.nd_routers.specs.Shown as routers;
ghost use Rattle.nd_params.specs.ParamsKept as parameters;
ghost use Rattle.nd_dns.specs.AnnouncedNames.{same_name};
ghost use Rattle.nd_nexthop.specs.History.{redirects};
ghost use Rattle.nd_nexthop.specs.Left.{redirects_left};
ghost use Rattle.nd_nexthop.specs.NextHopKept.{hop_of};
ghost use Rattle.nd_advertiser.specs.Advertising.{advertised_by};
ghost use Rattle.nd_advertiser.specs.Offers.{offers_of};
ghost use Rattle.nd_forwarding.specs.KeptRoutes.{routes_left};
ghost use Rattle.nd_forwarding.specs.Routes.{routes};
ghost use Rattle.nd_chronicle.specs.Start.{Start};
ghost use Rattle.nd_chronicle.specs.Happening.{Chronicle, last_moment};
ghost use Rattle.nd_chronicle.specs.Histories.{parameter_history, neighbour_history, router_history, prefix_history, address_history, server_history, name_history, redirect_history, advertising_history, route_history};
ghost use Rattle.nd_chronicle.specs.NextHop.{IsHopOf};
ghost use Rattle.nd_node.specs.Node.{last_of};
ghost use Rattle.nd_node.specs.NodeKept.{Stands, next_of};
ghost use Rattle.nd_node.specs.PathKept.{hop_kept};

use crate::node::Node;
use nd_addr::{Addr, Prefix, Role};
use nd_advertiser::{Config, OfferRows};
use nd_dns::{SearchName, WithLifetimes};
use nd_forwarding::KeptRoutes;
use nd_neighbour::{Neighbour, Neighbours, Reachability};
use nd_nexthop::{Hop, KeptRedirects};
use nd_params::Params;
use nd_routers::DefaultRouters;
use nd_slaac::{Counted, ShownAddresses};
use rand_core::Rng;
use std::alloc::Allocator;

impl<R: Rng + Drop, A: Allocator + Clone> Node<R, A> {
    /// Returns the moment up to which time has passed, in milliseconds. An event at an earlier one is refused as past.
    pub fn last_moment(&self) -> u64
        ensures value { result ≡ last_of self.now }
        ensures moment { (start : Start) (c : Chronicle) → Stands R.stream start self.now c → result ≡ last_moment start.at c }
    {
        self.last
    }

    /// Returns the neighbours as they are at `now`, in the order of their addresses (RFC 4861, sections 5.1 and 7.3.2).
    pub fn neighbours(&self, now: u64) -> Neighbours<'_, A>
        ensures { (start : Start) (c : Chronicle) → Stands R.stream start self.now c → neighbours.Lists (neighbour_history c) now (neighbours_left result) }
    {
        self.neighbours.rows(now)
    }

    /// Returns the neighbour of an address as it is at `now`, if there is an entry for it.
    pub fn neighbour(&self, now: u64, addr: Addr) -> Option<Neighbour>
        ensures value { option_map (λ n. neighbour_view.seen_in n) result ≡ option_map (seen now) (entry_in (number_of addr.0) self.now.neighbours.entries) }
        ensures seen { (start : Start) (c : Chronicle) → Stands R.stream start self.now c
            → option_map (λ n. neighbour_view.seen_in n) result ≡ neighbours.seen_of (number_of addr.0) (neighbour_rows.story (number_of addr.0) (neighbour_history c)) now }
    {
        self.neighbours.entry(now, addr)
    }

    /// Returns the state of the neighbour of an address at `now`, if there is an entry for it (RFC 4861, section 7.3.2).
    pub fn neighbour_state(&self, now: u64, addr: Addr) -> Option<Reachability>
        ensures { result ≡ option_map (λ n. n.state) (option_map (seen now) (entry_in (number_of addr.0) self.now.neighbours.entries)) }
    {
        Some(self.neighbours.get(addr)?.state(now))
    }

    /// Returns the default routers as they are at `now`, in the order in which they entered the list (RFC 4861, section 5.1).
    pub fn default_routers(&self, now: u64) -> DefaultRouters<'_>
        ensures { (start : Start) (c : Chronicle) → Stands R.stream start self.now c → routers.Shows (router_history c) now (routers_left result) }
    {
        self.routers.rows(now)
    }

    /// Returns the prefixes on the link at `now`, with what is left of their lifetimes, in the order in which they entered the list (RFC 4861, section 5.1).
    /// fe80::/64, which always is, is not among them.
    pub fn prefixes(&self, now: u64) -> WithLifetimes<'_, Prefix>
        ensures { (start : Start) (c : Chronicle) → Stands R.stream start self.now c → last_moment start.at c ≤ now → Shows same_prefix (prefix_history c) now (lifetimes_left result) }
    {
        self.prefixes.rows(now)
    }

    /// Returns the node's own addresses as they are at `now`, in the order of their numbers (RFC 4862, section 5).
    pub fn addresses(&self, now: u64) -> ShownAddresses<'_>
        ensures { (start : Start) (c : Chronicle) → Stands R.stream start self.now c → addresses.Lists (address_history c) now (addresses_left result) }
    {
        self.addresses.rows(now)
    }

    /// Returns the DNS servers at `now`, with what is left of their lifetimes, in the order in which they entered the list (RFC 8106, section 6.1).
    pub fn servers(&self, now: u64) -> WithLifetimes<'_, Addr>
        ensures { (start : Start) (c : Chronicle) → Stands R.stream start self.now c → last_moment start.at c ≤ now → Shows same_addr (server_history c) now (lifetimes_left result) }
    {
        self.dns.servers(now)
    }

    /// Returns the DNS search names at `now`, with what is left of their lifetimes, in the order in which they entered the list (RFC 8106, section 6.1).
    pub fn search_names(&self, now: u64) -> WithLifetimes<'_, SearchName<A>>
        ensures { (start : Start) (c : Chronicle) → Stands R.stream start self.now c → last_moment start.at c ≤ now → Shows same_name (name_history c) now (lifetimes_left result) }
    {
        self.dns.search_names(now)
    }

    /// Returns the kept redirects, the newest first (RFC 4861, section 8.3).
    pub fn redirects(&self) -> KeptRedirects<'_>
        ensures { (start : Start) (c : Chronicle) → Stands R.stream start self.now c → redirects_left result ≡ redirects start.limits.redirects (redirect_history c) }
    {
        self.choice.rows()
    }

    /// Returns the parameters of the link (RFC 4861, section 6.3.2).
    pub fn parameters(&self) -> Params
        ensures { (start : Start) (c : Chronicle) → Stands R.stream start self.now c → parameters.Stands result (parameter_history c) }
    {
        self.params
    }

    /// Returns what a router advertises, if it does (RFC 4861, section 6.2.1). A host never does.
    pub fn advertising(&self) -> Option<Config>
        ensures { (start : Start) (c : Chronicle) → Stands R.stream start self.now c → result ≡ advertised_by (advertising_history start c) }
    {
        self.router.advertiser.config()
    }

    /// Returns the prefixes that a router advertises, or will once it advertises, in the order in which each was first offered (RFC 4861, section
    /// 6.2.1, AdvPrefixList). A host has none.
    pub fn offers(&self) -> OfferRows<'_>
        ensures { (start : Start) (c : Chronicle) → Stands R.stream start self.now c → result ≡ offers_of (advertising_history start c) }
    {
        self.router.advertiser.rows()
    }

    /// Returns the static routes of a router, in the order in which each was first put. A host has none.
    pub fn routes(&self) -> KeptRoutes<'_>
        ensures { (start : Start) (c : Chronicle) → Stands R.stream start self.now c → routes_left result ≡ routes (route_history c) }
    {
        self.router.routes.rows()
    }

    /// Returns the next hop of a packet to a destination at `now`, up to which nothing is due: at a host by next-hop determination, at a router
    /// by its longest route (RFC 4861, section 5.2). It takes no memory.
    pub fn next_hop_to(&self, now: u64, destination: Addr) -> Hop
        requires settled { now < next_of self.now }
        ensures next { (start : Start) (c : Chronicle) → Stands R.stream start self.now c → last_moment start.at c ≤ now → IsHopOf start start.role c now destination (hop_of result) }
        ensures value { hop_of result ≡ hop_kept self.now.role self.now now destination }
    {
        match self.role {
            Role::Host => self.determined_hop(now, destination),
            Role::Router => {
                let is_own = self.addresses.counts(Counted::Own, destination);
                self.router.routes.next_hop(destination, is_own)
            }
        }
    }
}
