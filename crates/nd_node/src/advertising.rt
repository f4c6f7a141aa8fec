//! Configures what a router advertises (RFC 4861, section 6.2).

ghost use Rattle.std.specs.Prelude.{◌≡◌, ◌<◌, OnErr, ◌≤◌, IsOk, IfOk};
ghost use Rattle.nd_table.specs.Moment.{IsMoment};
ghost use Rattle.nd_chronicle.specs.Event as events;
ghost use Rattle.nd_chronicle.specs.Event.{EventAdds};
ghost use Rattle.nd_chronicle.specs.Happening.{Chronicle, last_moment};
ghost use Rattle.nd_chronicle.specs.Start.{Start};
ghost use Rattle.nd_node.specs.EventKept.{AddsEvent};
ghost use Rattle.nd_node.specs.Frame.{Stays};
ghost use Rattle.nd_node.specs.Memory.{AddsRefusal};
ghost use Rattle.nd_node.specs.Answer.{answer_of};

use crate::answer::Answer;
use crate::node::Node;
use nd_addr::Role;
use nd_advertiser::{Config, Offer};
use nd_out::{Limit, Refusal, Reports};
use nd_steps::{link_local, tell_advertisement};
use rand_core::Rng;
use std::alloc::{AllocError, Allocator};

impl<R: Rng + Drop, A: Allocator + Clone> Node<R, A> {
    ghost use Rattle.nd_node.specs.NodeKept.{Stands, next_of};

    /// Configures a router to advertise `config` from `now` on, in milliseconds (RFC 4861, section 6.2.1). A host refuses it. Returns an error if
    /// out of memory; nothing has changed then.
    pub(crate) fn advertise(
        &mut self,
        now: u64,
        config: Config,
        outs: &mut Reports<A>,
    ) -> Result<Answer, AllocError>
        requires moment { IsMoment now }
        requires settled { now < next_of self.old }
        ensures adds { IfOk result (λ answer. AddsEvent R.stream self.old self.new outs.old.items outs.new.items now (events.Advertises config) (answer_of answer)) }
        ensures stays { OnErr result (Stays R.stream self.old self.new) }
        ensures told { OnErr result (outs.new.items ≡ outs.old.items) }
        ensures refused { (start : Start) (c : Chronicle) → Stands R.stream start self.old c → last_moment start.at c ≤ now → AddsRefusal now c (EventAdds start now (events.Advertises config)) → 0 < outs.old.free → IsOk result }
    {
        match self.role {
            Role::Host => return self.refuse(now, Refusal::WrongRole, outs),
            Role::Router => {}
        }
        self.router.advertiser.begin(now, config);
        self.advance_to(now);
        Ok(Answer::Done)
    }

    /// Adds a prefix to those that a router advertises, or replaces its lifetimes (RFC 4861, section 6.2.1). A host refuses it, and so does a
    /// router whose list of prefixes is full. Returns an error if out of memory; nothing has changed then.
    pub(crate) fn offer(
        &mut self,
        now: u64,
        offer: Offer,
        outs: &mut Reports<A>,
    ) -> Result<Answer, AllocError>
        requires settled { now < next_of self.old }
        ensures adds { IfOk result (λ answer. AddsEvent R.stream self.old self.new outs.old.items outs.new.items now (events.Offers offer) (answer_of answer)) }
        ensures stays { OnErr result (Stays R.stream self.old self.new) }
        ensures told { OnErr result (outs.new.items ≡ outs.old.items) }
        ensures refused { (start : Start) (c : Chronicle) → Stands R.stream start self.old c → last_moment start.at c ≤ now → AddsRefusal now c (EventAdds start now (events.Offers offer)) → 0 < outs.old.free → IsOk result }
    {
        match self.role {
            Role::Host => return self.refuse(now, Refusal::WrongRole, outs),
            Role::Router => {}
        }
        match self.router.advertiser.put(offer) {
            Ok(()) => {
                self.advance_to(now);
                Ok(Answer::Done)
            }
            Err(_) => self.refuse(now, Refusal::Full(Limit::Offers), outs),
        }
    }

    /// Ceases advertising (RFC 4861, section 6.2.5): a router that has sent an advertisement since it began sends a last one, with a router
    /// lifetime of 0. A host refuses it. Returns an error if out of memory; nothing has changed then.
    pub(crate) fn cease(&mut self, now: u64, outs: &mut Reports<A>) -> Result<Answer, AllocError>
        requires moment { IsMoment now }
        requires settled { now < next_of self.old }
        ensures adds { IfOk result (λ answer. AddsEvent R.stream self.old self.new outs.old.items outs.new.items now events.Stops (answer_of answer)) }
        ensures stays { OnErr result (Stays R.stream self.old self.new) }
        ensures told { OnErr result (outs.new.items ≡ outs.old.items) }
        ensures refused { (start : Start) (c : Chronicle) → Stands R.stream start self.old c → last_moment start.at c ≤ now → AddsRefusal now c (EventAdds start now events.Stops) → 0 < outs.old.free → IsOk result }
    {
        match self.role {
            Role::Host => return self.refuse(now, Refusal::WrongRole, outs),
            Role::Router => {}
        }
        let own = link_local(&self.addresses);
        let alloc = outs.allocator().clone()?;
        let last = self.router.last_advertisement(alloc, self.mac, own)?;
        outs.reserve(1)?;
        let stopped = self.router.advertiser.stop(now);
        self.advance_to(now);
        if stopped {
            tell_advertisement(outs, now, last);
        }
        Ok(Answer::Done)
    }
}
