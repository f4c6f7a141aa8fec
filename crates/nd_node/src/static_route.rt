//! A static route of a router (RFC 4861, section 5.2).

ghost use Rattle.std.specs.Prelude.{◌≡◌, ◌<◌, OnErr, ◌≤◌, IsOk, IfOk};
ghost use Rattle.nd_chronicle.specs.Event as events;
ghost use Rattle.nd_chronicle.specs.Event.{EventAdds};
ghost use Rattle.nd_chronicle.specs.Happening.{Chronicle, last_moment};
ghost use Rattle.nd_chronicle.specs.Start.{Start};
ghost use Rattle.nd_node.specs.EventKept.{AddsEvent};
ghost use Rattle.nd_node.specs.Frame.{Stays};
ghost use Rattle.nd_node.specs.Memory.{AddsRefusal};
ghost use Rattle.nd_node.specs.Answer.{answer_of};

use crate::answer::Answer;
use crate::node::Node;
use nd_addr::Role;
use nd_forwarding::KeptRoute;
use nd_out::{Limit, Refusal, Reports};
use rand_core::Rng;
use std::alloc::{AllocError, Allocator};

impl<R: Rng + Drop, A: Allocator + Clone> Node<R, A> {
    ghost use Rattle.nd_node.specs.NodeKept.{Stands, next_of};

    /// Gives a router a static route, in place of an existing one of the same prefix. A host refuses it, and so does a router whose list of routes
    /// is full. Returns an error if out of memory; nothing has changed then.
    pub(crate) fn put_route(
        &mut self,
        now: u64,
        kept: KeptRoute,
        outs: &mut Reports<A>,
    ) -> Result<Answer, AllocError>
        requires settled { now < next_of self.old }
        ensures adds { IfOk result (λ answer. AddsEvent R.stream self.old self.new outs.old.items outs.new.items now (events.Routes kept.prefix kept.route) (answer_of answer)) }
        ensures stays { OnErr result (Stays R.stream self.old self.new) }
        ensures told { OnErr result (outs.new.items ≡ outs.old.items) }
        ensures refused { (start : Start) (c : Chronicle) → Stands R.stream start self.old c → last_moment start.at c ≤ now → AddsRefusal now c (EventAdds start now (events.Routes kept.prefix kept.route)) → 0 < outs.old.free → IsOk result }
    {
        match self.role {
            Role::Host => return self.refuse(now, Refusal::WrongRole, outs),
            Role::Router => {}
        }
        match self.router.routes.put(kept.prefix, kept.route) {
            Ok(()) => {
                self.advance_to(now);
                Ok(Answer::Done)
            }
            Err(_) => self.refuse(now, Refusal::Full(Limit::StaticRoutes), outs),
        }
    }
}
