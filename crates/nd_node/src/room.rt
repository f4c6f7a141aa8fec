//! The memory of a node's tables, reserved to their limits before the node starts.

ghost use Rattle.std.specs.Prelude.{◌≡◌, [], None, IfOk};
ghost use Rattle.nd_addr.specs.Same.{same_prefix};
ghost use Rattle.nd_table.specs.ListingKept as lists;
ghost use Rattle.nd_neighbour.specs.TableKept as neighbours;
ghost use Rattle.nd_routers.specs.RoutersKept as routers;
ghost use Rattle.nd_dns.specs.DnsKept as dns;
ghost use Rattle.nd_nexthop.specs.Choice as choice;

use crate::limits::Limits;
use nd_dns::Dns;
use nd_neighbour::Cache;
use nd_nexthop::Choice;
use nd_routers::{Prefixes, Routers};
use nd_slaac::AddressRoom;
use nd_steps::RouterTables;
use std::alloc::{AllocError, Allocator};

/// The empty tables of a node, reserved before it starts.
#[derive(Drop)]
pub(crate) struct Room<A: Allocator> {
    pub(crate) routers: Routers<A>,
    pub(crate) prefixes: Prefixes<A>,
    pub(crate) addresses: AddressRoom<A>,
    pub(crate) neighbours: Cache<A>,
    pub(crate) dns: Dns<A>,
    pub(crate) choice: Choice<A>,
    pub(crate) router: RouterTables<A>,
}

impl<A: Allocator + Copy> Room<A> {
    /// Reserves each table to its limit. Returns an error if out of memory.
    pub(crate) fn new(alloc: A, limits: Limits) -> Result<Self, AllocError>
        ensures routers { IfOk result (λ room. room.routers ≡ record { limit = limits.routers; entries = []; preferences = []; failed = [] }) }
        ensures router_history { IfOk result (λ room. routers.Stands room.routers []) }
        ensures no_prefixes { IfOk result (λ room. room.prefixes ≡ record { limit = limits.prefixes; entries = [] }) }
        ensures prefixes { IfOk result (λ room. lists.Stands same_prefix room.prefixes.entries []) }
        ensures neighbours { IfOk result (λ room. room.neighbours ≡ record { limit = limits.neighbours; entries = []; waiting = limits.waiting; rings = 0 }) }
        ensures neighbour_history { IfOk result (λ room. neighbours.Stands room.neighbours.entries []) }
        ensures addresses { IfOk result (λ room. room.addresses ≡ limits.addresses) }
        ensures no_dns { IfOk result (λ room. room.dns ≡ record { server_limit = limits.servers; name_limit = limits.names; servers = []; names = [] }) }
        ensures dns { IfOk result (λ room. dns.Stands room.dns [] []) }
        ensures choice { IfOk result (λ room. room.choice ≡ record { redirects = record { limit = limits.redirects; destinations = limits.destinations; entries = [] }; memory = record { limit = limits.destinations; hops = []; until = None } }) }
        ensures redirects { IfOk result (λ room. choice.Stands room.choice []) }
        ensures advertiser { IfOk result (λ room. room.router.advertiser ≡ record { assigned = None; last = None; advertising = None; limit = limits.offers; offers = [] }) }
        ensures routes { IfOk result (λ room. room.router.routes ≡ record { limit = limits.routes; entries = []; redirected = None }) }
    {
        Ok(Room {
            routers: Routers::new(alloc, limits.routers())?,
            prefixes: Prefixes::new(alloc, limits.prefixes())?,
            addresses: AddressRoom::new(alloc, limits.addresses())?,
            neighbours: Cache::new(alloc, limits.neighbours(), limits.waiting())?,
            dns: Dns::new(alloc, limits.servers(), limits.names())?,
            choice: Choice::new(alloc, limits.redirects(), limits.destinations())?,
            router: RouterTables::new(alloc, limits.offers(), limits.routes())?,
        })
    }
}
