//! The number of rows in each table of a node.

ghost use Rattle.std.specs.Prelude.{◌≡◌, ◌≤◌, length};
ghost use Rattle.nd_addr.specs.Number.{number_of};
ghost use Rattle.nd_chronicle.specs.Happening.{Chronicle};
ghost use Rattle.nd_chronicle.specs.Histories.{neighbour_history};
ghost use Rattle.nd_chronicle.specs.Start.{Start};
ghost use Rattle.nd_neighbour.specs.History.{story};
ghost use Rattle.nd_neighbour.specs.Story.{waits_of};
ghost use Rattle.nd_packet.specs.Waiting.{max_waiting};
ghost use Rattle.nd_node.specs.Counts.{Counted, WithinLimits};

use crate::limits::Limits;
use crate::node::Node;
use nd_addr::Addr;
use rand_core::Rng;
use std::alloc::Allocator;

/// The number of rows in each table of a node. Rows whose end is due but not yet reported are counted.
#[derive(Clone, Copy, Debug, PartialEq, Eq)]
pub struct Counts {
    pub neighbours: usize,
    pub routers: usize,
    pub prefixes: usize,
    /// The node's own addresses, the link-local one included.
    pub addresses: usize,
    pub servers: usize,
    pub search_names: usize,
    /// The destinations among the kept redirects.
    pub redirects: usize,
    /// The prefixes that a router advertises. A host has none.
    pub offers: usize,
    /// The static routes of a router. A host has none.
    pub routes: usize,
}

impl<R: Rng + Drop, A: Allocator + Clone> Node<R, A> {
    ghost use Rattle.nd_node.specs.NodeKept.{Stands};

    /// Returns the number of rows in each table. None passes its limit, for any input (our choice: RFC 4861, section 5.3, leaves limits to the
    /// node). It takes no memory.
    pub fn counts(&self) -> Counts
        ensures value { Counted self.now result }
        ensures within { (start : Start) (c : Chronicle) → Stands R.stream start self.now c → WithinLimits start.limits result }
    {
        let neighbours = self.neighbours.len();
        let routers = self.routers.len();
        let prefixes = self.prefixes.len();
        let addresses = self.addresses.len();
        let servers = self.dns.servers_len();
        let search_names = self.dns.search_names_len();
        let redirects = self.choice.redirects_len();
        let offers = self.router.advertiser.offers_len();
        let routes = self.router.routes.len();
        Counts {
            neighbours,
            routers,
            prefixes,
            addresses,
            servers,
            search_names,
            redirects,
            offers,
            routes,
        }
    }

    /// Returns the limits that the node was started with. No table passes its own.
    pub fn limits(&self) -> Limits
        ensures value { result ≡ self.now.limits }
        ensures start { (start : Start) (c : Chronicle) → Stands R.stream start self.now c → result ≡ start.limits }
    {
        self.limits
    }

    /// Returns how many packets wait for a neighbour's link-layer address, at most as many as the limit on them (RFC 4861, section 7.2.2). It takes no
    /// memory.
    pub fn waiting_at(&self, addr: Addr) -> usize
        ensures value { (start : Start) (c : Chronicle) → Stands R.stream start self.now c → result ≡ length (waits_of (story (number_of addr.0) (neighbour_history c))) }
        ensures few { result ≤ max_waiting }
        ensures limit { (start : Start) (c : Chronicle) → Stands R.stream start self.now c → result ≤ start.limits.waiting }
    {
        self.neighbours.waiting_at(addr)
    }
}
