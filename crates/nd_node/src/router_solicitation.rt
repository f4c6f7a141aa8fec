//! Handles a Router Solicitation (RFC 4861, section 6.2.6).

ghost use Rattle.std.specs.Prelude.{◌≡◌, ◌∷◌, ◌<◌, ◌≤◌, false, Some, IsOk, OnErr, IfOk};
ghost use Rattle.nd_decode.specs.declared.body.Body.TheVariants as bodies;
ghost use Rattle.nd_table.specs.Moment.{IsMoment};
ghost use Rattle.nd_chronicle.specs.Full.{Fills};
ghost use Rattle.nd_chronicle.specs.Happening.{Chronicle, Limit as Table, Passed, last_moment};
ghost use Rattle.nd_chronicle.specs.Start.{Start};
ghost use Rattle.nd_node.specs.Hearing.{AddsMessage, options_read};
ghost use Rattle.nd_node.specs.Answer.{answer_of};

use crate::answer::Answer;
use crate::message::MOST_ROWS;
use crate::node::Node;
use nd_out::{Limit, Refusal, Reports};
use nd_packet::MAX_WAITING;
use nd_steps::{
    has_place, hear_giver, most_told_of_way, news_in_place, news_of, note_way, tell_ignored,
    times_in_force,
};
use nd_validity::Heard;
use rand_core::Rng;
use std::alloc::{AllocError, Allocator};

impl<R: Rng + Drop, A: Allocator + Clone> Node<R, A> {
    ghost use Rattle.nd_node.specs.NodeKept.{Stands, next_of};

    /// Handles a Router Solicitation at `now`, in milliseconds: the sender's entry takes what it says, and a router plans its answer (RFC 4861,
    /// section 6.2.6). If there is no room for the sender among the neighbours it is refused, or taken without the sender's link-layer address with the policy
    /// `parts`. Returns an error if out of memory; nothing has changed then.
    pub(crate) fn hear_router_solicitation(
        &mut self,
        now: u64,
        heard: &Heard<'_>,
        outs: &mut Reports<A>,
    ) -> Result<Answer, AllocError>
        requires moment { IsMoment now }
        requires settled { now < next_of self.old }
        requires body { heard.now.message.body ≡ bodies.Rs }
        ensures adds { IfOk result (λ answer. AddsMessage R.stream self.old self.new outs.old.items outs.new.items now heard.now.source heard.now.destination (record { body = bodies.Rs; options = options_read self.old heard.now.message.options }) (answer_of answer)) }
        ensures keeps { OnErr result (self.new ≡ self.old) }
        ensures told { OnErr result (outs.new.items ≡ outs.old.items) }
        ensures full { (limit : Table) (start : Start) (c : Chronicle) → Stands R.stream start self.old c → last_moment start.at c ≤ now → Fills start ((now, Passed) ∷ c) now heard.now.source (record { body = bodies.Rs; options = options_read self.old heard.now.message.options }) (bodies.Rs) (Some limit) → self.old.policies.parts ≡ false → 0 < outs.old.free → IsOk result }
    {
        nd_neighbour::laws::none_overdue();
        nd_neighbour::laws::one_is_pushed_out();
        nd_neighbour::laws::an_end_ends_once();
        let news = news_of(
            heard.source,
            &heard.message.body,
            heard.message.options,
            self.own_mac(),
        );
        let speakers = self.policies.speakers();
        let place = has_place(&self.neighbours, now, news, speakers);
        if !place && !self.policies.parts() {
            return self.refuse(now, Refusal::Full(Limit::Neighbours), outs);
        }
        let taken = news_in_place(news, place);
        outs.reserve(MAX_WAITING + MOST_ROWS + most_told_of_way(speakers))?;
        self.report_heard(now, heard, outs);
        let times = times_in_force(&self.params);
        // Section 6.2.6: the sender's link-layer address, "the Neighbor Cache entry's IsRouter flag MUST be set to FALSE".
        let gone = hear_giver(
            &mut self.neighbours,
            &mut self.choice,
            now,
            taken,
            times,
            speakers,
            outs,
        );
        note_way(&mut self.routers, &mut self.choice, gone);
        // Section 6.2.6: "A router MAY choose to unicast the response [..] but the usual case is to multicast the response".
        self.router
            .hear_solicitation(self.role, now, &mut self.generator);
        tell_ignored(outs, now, place, Limit::Neighbours);
        Ok(Answer::Done)
    }
}
