//! The next hop of a packet, from the tables of a node (RFC 4861, sections 5.2 and 6.3.6).

ghost use Rattle.std.specs.Prelude.{◌≡◌, ◌<◌, ◌≤◌};
ghost use Rattle.nd_chronicle.specs.Happening.{Chronicle, last_moment};
ghost use Rattle.nd_chronicle.specs.Start.{Start};

use crate::node::Node;
use nd_addr::{Addr, Role};
use nd_nexthop::Hop;
use nd_slaac::Counted;
use nd_steps::Tables;
use rand_core::Rng;
use std::alloc::Allocator;

impl<R: Rng + Drop, A: Allocator + Clone> Node<R, A> {
    ghost use Rattle.nd_nexthop.specs.NextHopKept.{hop_of};
    ghost use Rattle.nd_chronicle.specs.NextHop.{IsHopOf, IsNextHop};
    ghost use Rattle.nd_node.specs.NodeKept.{Stands, next_of};
    ghost use Rattle.nd_node.specs.PathKept.{hop_kept};

    /// Returns the next hop that a host chooses for `destination` at `now`, in milliseconds, up to which nothing is due (RFC 4861, section 5.2). It
    /// remembers the next hop if it gets the memory for that, and does without otherwise.
    pub(crate) fn next_hop(&mut self, now: u64, destination: Addr) -> Hop
        requires settled { now < next_of self.old }
        ensures next { (start : Start) (c : Chronicle) → Stands R.stream start self.old c → last_moment start.at c ≤ now → IsNextHop start c now destination (hop_of result) }
        ensures stands { (start : Start) (c : Chronicle) → Stands R.stream start self.old c → Stands R.stream start self.new c }
        ensures due { next_of self.new ≡ next_of self.old }
        ensures neighbours { self.new.neighbours.entries ≡ self.old.neighbours.entries }
    {
        nd_addr::laws::addresses_are_told_by_numbers();
        let _bytes = destination.as_bytes();
        // The tables are not asked about an earlier moment than the last one.
        let at = now.max(self.last);
        let tables = Tables {
            now: at,
            routers: &self.routers,
            prefixes: &self.prefixes,
            addresses: &self.addresses,
            neighbours: &self.neighbours,
        };
        self.choice.next_hop(at, destination, &tables)
    }

    /// Returns the next hop that a host chooses for `destination` at `now`, in milliseconds, up to which nothing is due. It is determined anew: what is
    /// remembered is neither read nor changed. It takes no memory.
    pub(crate) fn determined_hop(&self, now: u64, destination: Addr) -> Hop
        requires settled { now < next_of self.now }
        ensures next { (start : Start) (c : Chronicle) → Stands R.stream start self.now c → last_moment start.at c ≤ now → IsNextHop start c now destination (hop_of result) }
        ensures value { hop_of result ≡ hop_kept Role.Host self.now now destination }
    {
        let tables = Tables {
            now,
            routers: &self.routers,
            prefixes: &self.prefixes,
            addresses: &self.addresses,
            neighbours: &self.neighbours,
        };
        self.choice.determine(destination, &tables)
    }

    /// Returns the next hop of this node's packet to `destination` at `now`, in milliseconds, up to which nothing is due: a host chooses from its
    /// tables, a router takes its longest route (RFC 4861, section 5.2).
    #[inline(always)]
    pub(crate) fn hop_of_packet(&mut self, now: u64, destination: Addr) -> Hop
        requires settled { now < next_of self.old }
        ensures next { (start : Start) (c : Chronicle) → Stands R.stream start self.old c → last_moment start.at c ≤ now → IsHopOf start start.role c now destination (hop_of result) }
        ensures stands { (start : Start) (c : Chronicle) → Stands R.stream start self.old c → Stands R.stream start self.new c }
        ensures due { next_of self.new ≡ next_of self.old }
        ensures neighbours { self.new.neighbours.entries ≡ self.old.neighbours.entries }
    {
        match self.role {
            Role::Host => self.next_hop(now, destination),
            Role::Router => {
                let is_own = self.addresses.counts(Counted::Own, destination);
                self.router.routes.next_hop(destination, is_own)
            }
        }
    }
}
