//! The rows of a table as text.

ghost use Rattle.std.specs.Prelude.{◌≤◌, IfOk, map, string_bytes};
ghost use Rattle.nd_node.specs.Event.{table_of};

use crate::node::Node;
use nd_out::{
    address_rows, advertise_rows, dns_rows, neighbour_rows, parameter_row, prefix_rows,
    redirect_rows, route_rows, router_rows,
};
use rand_core::Rng;
use std::alloc::{AllocError, Allocator};

/// The tables that can be shown.
#[derive(Clone, Copy, Debug, PartialEq, Eq)]
pub enum Table {
    /// The neighbours (RFC 4861, section 5.1).
    Neighbours,
    /// The default routers (RFC 4861, section 5.1).
    Routers,
    /// The prefixes on the link (RFC 4861, section 5.1).
    Prefixes,
    /// The node's own addresses (RFC 4862, section 5).
    Addresses,
    /// The DNS servers and search names (RFC 8106, section 6.1).
    Dns,
    /// The kept redirects (RFC 4861, section 8.3).
    Redirects,
    /// The parameters of the link (RFC 4861, section 6.3.2).
    Params,
    /// What a router advertises. A host shows nothing.
    Advertise,
    /// The static routes of a router. A host shows nothing.
    Routes,
}

impl<R: Rng + Drop, A: Allocator + Clone> Node<R, A> {
    ghost use Rattle.nd_chronicle.specs.Start.{Start};
    ghost use Rattle.nd_chronicle.specs.Happening.{Chronicle, last_moment};
    ghost use Rattle.nd_chronicle.specs.Shown.{AreRows};
    ghost use Rattle.nd_node.specs.NodeKept.{Stands};

    /// Returns the text of each row of a table at `now`, in milliseconds, up to which all that is due is done: one text for each of the typed rows
    /// that the calls of `tables` return. The tables of a router are empty at a host. Returns an error if out of memory.
    pub fn rows(&self, alloc: &A, now: u64, table: Table) -> Result<Vec<String<A>, A>, AllocError>
        ensures { IfOk result (λ rows. (start : Start) (c : Chronicle) → Stands R.stream start self.now c → last_moment start.at c ≤ now
            → AreRows start c now (table_of table) (map string_bytes rows.items)) }
    {
        match table {
            Table::Neighbours => neighbour_rows(alloc, self.neighbours(now)),
            Table::Routers => router_rows(alloc, self.default_routers(now)),
            Table::Prefixes => prefix_rows(alloc, self.prefixes(now)),
            Table::Addresses => address_rows(alloc, self.addresses(now)),
            Table::Dns => dns_rows(alloc, self.servers(now), self.search_names(now)),
            Table::Redirects => redirect_rows(alloc, self.redirects()),
            Table::Params => parameter_row(alloc, &self.parameters()),
            Table::Advertise => {
                let advertises = self.router.advertiser.is_on();
                advertise_rows(alloc, self.role, advertises, self.offers())
            }
            Table::Routes => route_rows(alloc, self.role, self.routes()),
        }
    }
}
