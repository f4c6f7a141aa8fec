//! A node: its tables, and its start.

ghost use Rattle.std.specs.Prelude.{◌≡◌, ◌<◌, IfOk, IfErr};
ghost use Rattle.nd_table.specs.Moment.{IsMoment};
ghost use Rattle.nd_chronicle.specs.Start.{Start};

use crate::limits::Limits;
use crate::policies::Policies;
use crate::room::Room;
use nd_addr::{Mac, Role};
use nd_dns::Dns;
use nd_neighbour::Cache;
use nd_nexthop::Choice;
use nd_params::{Params, REACHABLE_TIME};
use nd_routers::{Prefixes, Routers};
use nd_slaac::{Addresses, Transmits};
use nd_steps::{
    MAX_RTR_SOLICITATION_DELAY, RouterSolicitations, RouterTables, drawn_from, reachable_drawn,
};
use rand_core::Rng;
use std::alloc::Allocator;

/// A host or a router on its link. Each moment that a call takes or returns is in milliseconds; the caller chooses where they begin.
#[derive(Drop)]
pub struct Node<R, A: Allocator> {
    pub(crate) role: Role,
    pub(crate) mac: Mac,
    /// The limits that it was started with.
    pub(crate) limits: Limits,
    pub(crate) policies: Policies,
    pub(crate) generator: R,
    /// The moment up to which time has passed. Only `advance_to` of `clock.rt` changes it.
    pub(crate) last: u64,
    pub(crate) params: Params,
    pub(crate) routers: Routers<A>,
    pub(crate) prefixes: Prefixes<A>,
    pub(crate) addresses: Addresses<A>,
    pub(crate) neighbours: Cache<A>,
    pub(crate) dns: Dns<A>,
    pub(crate) choice: Choice<A>,
    pub(crate) solicitations: RouterSolicitations,
    pub(crate) router: RouterTables<A>,
}

impl<R: Rng + Drop, A: Allocator + Copy> Node<R, A> {
    ghost use Rattle.nd_chronicle.specs.History.{beginning};
    ghost use Rattle.nd_node.specs.Node.{starting, with_policies};
    ghost use Rattle.nd_node.specs.NodeKept.{Stands};

    /// Starts a node at `start`, in milliseconds. It draws its ReachableTime, then the delay of the first solicitation for its link-local address,
    /// and forms that address (RFC 4861, section 6.3.2; RFC 4862, sections 5.3 and 5.4.2). `transmits` is the number of solicitations that it sends
    /// for each address, and `limits` says how many rows each of its tables keeps at most. It has no policies. If out of memory, returns the generator
    /// with no word drawn.
    pub fn new(
        alloc: A,
        role: Role,
        mac: Mac,
        start: u64,
        transmits: Transmits,
        limits: Limits,
        mut generator: R,
    ) -> Result<Self, R>
        requires { IsMoment start }
        ensures stands { IfOk result (λ node. let first = starting start role mac transmits limits (R.stream generator) in Stands R.stream first node (beginning first)) }
        ensures kept { IfErr result (λ rest. R.stream rest ≡ R.stream generator) }
    {
        let Ok(room) = Room::new(alloc, limits) else {
            return Err(generator);
        };
        let reachable = reachable_drawn(&mut generator, REACHABLE_TIME);
        let delay = drawn_from(&mut generator, 0, MAX_RTR_SOLICITATION_DELAY);
        let params = Params::new(start, reachable);
        let retrans = params.retrans_timer();
        Ok(Node {
            role,
            mac,
            limits,
            policies: Policies::none(),
            generator,
            last: start,
            params,
            routers: room.routers,
            prefixes: room.prefixes,
            addresses: Addresses::start(
                room.addresses,
                start,
                mac,
                transmits,
                delay as u32,
                retrans,
            ),
            neighbours: room.neighbours,
            dns: room.dns,
            choice: room.choice,
            solicitations: RouterSolicitations::new(),
            router: room.router,
        })
    }

    /// Returns a node that has just started with these policies.
    pub fn with_policies(mut self, policies: Policies) -> Self
        ensures value { result ≡ record self { policies = policies } }
        ensures stands { (start : Start) → Stands R.stream start self (beginning start) → Stands R.stream (with_policies policies start) result (beginning (with_policies policies start)) }
    {
        self.policies = policies;
        self
    }
}
