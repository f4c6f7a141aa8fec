//! What a session's node knows: the questions of `Node` under their own names. None of them changes anything or takes memory. `now` is in
//! milliseconds, and not before the node's last moment; what is due up to it should be done, since only an event does it.

ghost use Rattle.std.specs.Prelude.{◌≡◌, ◌<◌, ◌≤◌, MatchBool};
ghost use Rattle.std.specs.Option.{option_map};
ghost use Rattle.nd_addr.specs.Number.{number_of};
ghost use Rattle.nd_addr.specs.Same.{same_addr, same_prefix};
ghost use Rattle.nd_table.specs.Left.{lifetimes_left};
ghost use Rattle.nd_table.specs.Shown.{Shows};
ghost use Rattle.nd_neighbour.specs.History as neighbour_rows;
ghost use Rattle.nd_neighbour.specs.Left.{neighbours_left};
ghost use Rattle.nd_neighbour.specs.Shown as neighbours;
ghost use Rattle.nd_neighbour.specs.View as neighbour_view;
ghost use Rattle.nd_slaac.specs.Left.{addresses_left};
ghost use Rattle.nd_slaac.specs.Shown as addresses;
ghost use Rattle.nd_routers.specs.Left.{routers_left};
ghost use Rattle.nd_routers.specs.Shown as routers;
ghost use Rattle.nd_params.specs.ParamsKept as parameters;
ghost use Rattle.nd_dns.specs.AnnouncedNames.{same_name};
ghost use Rattle.nd_nexthop.specs.History.{redirects};
ghost use Rattle.nd_nexthop.specs.Left.{redirects_left};
ghost use Rattle.nd_nexthop.specs.NextHopKept.{hop_of};
ghost use Rattle.nd_advertiser.specs.Advertising.{advertised_by};
ghost use Rattle.nd_advertiser.specs.Offers.{offers_of};
ghost use Rattle.nd_forwarding.specs.KeptRoutes.{routes_left};
ghost use Rattle.nd_forwarding.specs.Routes.{routes};
ghost use Rattle.nd_chronicle.specs.Start.{Start};
ghost use Rattle.nd_chronicle.specs.Happening.{Chronicle, last_moment};
ghost use Rattle.nd_chronicle.specs.Histories.{parameter_history, neighbour_history, router_history, prefix_history, address_history, server_history, name_history, redirect_history, advertising_history, route_history};
ghost use Rattle.nd_chronicle.specs.NextHop.{IsHopOf};
ghost use Rattle.nd_node.specs.Counts.{Counted, WithinLimits};
ghost use Rattle.nd_node.specs.Node.{last_of};
ghost use Rattle.nd_node.specs.NodeKept.{Stands, next_of};
ghost use Rattle.nd_random.specs.Source.{stream_of_source};

use crate::session::Session;
use nd_addr::{Addr, Prefix};
use nd_advertiser::{Config, OfferRows};
use nd_dns::{SearchName, WithLifetimes};
use nd_forwarding::KeptRoutes;
use nd_neighbour::{Neighbour, Neighbours};
use nd_nexthop::{Hop, KeptRedirects};
use nd_node::{Counts, Limits};
use nd_params::Params;
use nd_routers::DefaultRouters;
use nd_slaac::ShownAddresses;
use std::alloc::Global;

impl Session {
    /// Returns the moment up to which time has passed, in milliseconds.
    pub fn last_moment(&self) -> u64
        ensures value { result ≡ last_of self.now.node }
        ensures moment { (start : Start) (c : Chronicle) → Stands stream_of_source start self.now.node c → result ≡ last_moment start.at c }
    {
        self.node.last_moment()
    }

    /// Returns true if `now`, in milliseconds, is earlier than the moment up to which time has passed.
    pub fn is_past(&self, now: u64) -> bool
        ensures { MatchBool result (now < last_of self.now.node) (last_of self.now.node ≤ now) }
    {
        self.node.is_past(now)
    }

    /// Returns the neighbours at `now`, in the order of their addresses.
    pub fn neighbours(&self, now: u64) -> Neighbours<'_, Global>
        ensures { (start : Start) (c : Chronicle) → Stands stream_of_source start self.now.node c → neighbours.Lists (neighbour_history c) now (neighbours_left result) }
    {
        self.node.neighbours(now)
    }

    /// Returns the neighbour of an address at `now`, if there is an entry for it.
    pub fn neighbour(&self, now: u64, addr: Addr) -> Option<Neighbour>
        ensures { (start : Start) (c : Chronicle) → Stands stream_of_source start self.now.node c
            → option_map (λ n. neighbour_view.seen_in n) result ≡ neighbours.seen_of (number_of addr.0) (neighbour_rows.story (number_of addr.0) (neighbour_history c)) now }
    {
        self.node.neighbour(now, addr)
    }

    /// Returns the default routers at `now`, in the order in which they entered the list.
    pub fn default_routers(&self, now: u64) -> DefaultRouters<'_>
        ensures { (start : Start) (c : Chronicle) → Stands stream_of_source start self.now.node c → routers.Shows (router_history c) now (routers_left result) }
    {
        self.node.default_routers(now)
    }

    /// Returns the prefixes on the link at `now`, with what is left of their lifetimes, in the order in which they entered the list.
    pub fn prefixes(&self, now: u64) -> WithLifetimes<'_, Prefix>
        ensures { (start : Start) (c : Chronicle) → Stands stream_of_source start self.now.node c → last_moment start.at c ≤ now → Shows same_prefix (prefix_history c) now (lifetimes_left result) }
    {
        self.node.prefixes(now)
    }

    /// Returns the node's own addresses at `now`, in the order of their numbers.
    pub fn addresses(&self, now: u64) -> ShownAddresses<'_>
        ensures { (start : Start) (c : Chronicle) → Stands stream_of_source start self.now.node c → addresses.Lists (address_history c) now (addresses_left result) }
    {
        self.node.addresses(now)
    }

    /// Returns the DNS servers at `now`, with what is left of their lifetimes, in the order in which they entered the list.
    pub fn servers(&self, now: u64) -> WithLifetimes<'_, Addr>
        ensures { (start : Start) (c : Chronicle) → Stands stream_of_source start self.now.node c → last_moment start.at c ≤ now → Shows same_addr (server_history c) now (lifetimes_left result) }
    {
        self.node.servers(now)
    }

    /// Returns the DNS search names at `now`, with what is left of their lifetimes, in the order in which they entered the list.
    pub fn search_names(&self, now: u64) -> WithLifetimes<'_, SearchName<Global>>
        ensures { (start : Start) (c : Chronicle) → Stands stream_of_source start self.now.node c → last_moment start.at c ≤ now → Shows same_name (name_history c) now (lifetimes_left result) }
    {
        self.node.search_names(now)
    }

    /// Returns the kept redirects, the newest first.
    pub fn redirects(&self) -> KeptRedirects<'_>
        ensures { (start : Start) (c : Chronicle) → Stands stream_of_source start self.now.node c → redirects_left result ≡ redirects start.limits.redirects (redirect_history c) }
    {
        self.node.redirects()
    }

    /// Returns the parameters of the link.
    pub fn parameters(&self) -> Params
        ensures { (start : Start) (c : Chronicle) → Stands stream_of_source start self.now.node c → parameters.Stands result (parameter_history c) }
    {
        self.node.parameters()
    }

    /// Returns what a router advertises, if it does. A host never does.
    pub fn advertising(&self) -> Option<Config>
        ensures { (start : Start) (c : Chronicle) → Stands stream_of_source start self.now.node c → result ≡ advertised_by (advertising_history start c) }
    {
        self.node.advertising()
    }

    /// Returns the prefixes that a router advertises, or will once it advertises, in the order in which each was first offered. A host has none.
    pub fn offers(&self) -> OfferRows<'_>
        ensures { (start : Start) (c : Chronicle) → Stands stream_of_source start self.now.node c → result ≡ offers_of (advertising_history start c) }
    {
        self.node.offers()
    }

    /// Returns the static routes of a router, in the order in which each was first put. A host has none.
    pub fn routes(&self) -> KeptRoutes<'_>
        ensures { (start : Start) (c : Chronicle) → Stands stream_of_source start self.now.node c → routes_left result ≡ routes (route_history c) }
    {
        self.node.routes()
    }

    /// Returns the number of rows of each table, which is never more than its limit.
    pub fn counts(&self) -> Counts
        ensures value { Counted self.now.node result }
        ensures within { (start : Start) (c : Chronicle) → Stands stream_of_source start self.now.node c → WithinLimits start.limits result }
    {
        self.node.counts()
    }

    /// Returns the limits that the node was started with.
    pub fn limits(&self) -> Limits
        ensures value { result ≡ self.now.node.limits }
        ensures start { (start : Start) (c : Chronicle) → Stands stream_of_source start self.now.node c → result ≡ start.limits }
    {
        self.node.limits()
    }

    /// Returns the next hop of a packet to a destination at `now`, up to which nothing is due.
    pub fn next_hop_to(&self, now: u64, destination: Addr) -> Hop
        requires settled { now < next_of self.now.node }
        ensures { (start : Start) (c : Chronicle) → Stands stream_of_source start self.now.node c → last_moment start.at c ≤ now → IsHopOf start start.role c now destination (hop_of result) }
    {
        self.node.next_hop_to(now, destination)
    }
}
