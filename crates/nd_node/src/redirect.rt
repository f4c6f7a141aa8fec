//! A Redirect is received (RFC 4861, sections 8.1 and 8.3).

ghost use Rattle.std.specs.Prelude.{◌≡◌, ◌∷◌, ◌<◌, ◌≤◌, true, false, Some, IsOk, OnErr, IfOk};
ghost use Rattle.nd_decode.specs.declared.body.Body.TheVariants as bodies;
ghost use Rattle.nd_table.specs.Moment.{IsMoment};
ghost use Rattle.nd_chronicle.specs.Full.{Fills};
ghost use Rattle.nd_chronicle.specs.Happening.{Chronicle, Limit as Table, Passed, last_moment};
ghost use Rattle.nd_chronicle.specs.Start.{Start};
ghost use Rattle.nd_chronicle.specs.Hearing.{FromFirstHop, NotFromFirstHop};
ghost use Rattle.nd_node.specs.Hearing.{AddsMessage, options_read};
ghost use Rattle.nd_node.specs.Answer.{answer_of};

use crate::answer::Answer;
use crate::message::MOST_ROWS;
use crate::node::Node;
use nd_decode::{Body, Redirect};
use nd_out::{Limit, Refusal, Reports};
use nd_packet::MAX_WAITING;
use nd_steps::{
    has_place, hear_giver, is_via, most_told_of_way, news_in_place, news_of, note_way,
    tell_ignored, times_in_force,
};
use nd_validity::Heard;
use rand_core::Rng;
use std::alloc::{AllocError, Allocator};

impl<R: Rng + Drop, A: Allocator + Clone> Node<R, A> {
    ghost use Rattle.nd_node.specs.NodeKept.{Stands, next_of};

    /// Returns true if a message is from where it has to be, as the tables say before they hear it: a Redirect from the current first hop of its
    /// destination (RFC 4861, section 8.1).
    pub(crate) fn is_from_first_hop(&self, now: u64, heard: &Heard<'_>) -> bool
        requires settled { now < next_of self.now }
        ensures from { (start : Start) (c : Chronicle) → Stands R.stream start self.now c → last_moment start.at c ≤ now → result ≡ true → FromFirstHop start ((now, Passed) ∷ c) now heard.now.source heard.now.message.body }
        ensures not_from { (start : Start) (c : Chronicle) → Stands R.stream start self.now c → last_moment start.at c ≤ now → result ≡ false → NotFromFirstHop start ((now, Passed) ∷ c) now heard.now.source heard.now.message.body }
    {
        match &heard.message.body {
            Body::Redirect(redirect) => {
                // A Redirect that is taken forgets what is remembered.
                let hop = self.determined_hop(now, redirect.destination);
                is_via(hop, heard.source)
            }
            _ => true,
        }
    }

    /// Handles a Redirect from the first hop of its destination at `now`, in milliseconds: its target is the destination's next hop from now on,
    /// and the target's entry takes what the Redirect says (RFC 4861, section 8.3). If there is no room for the target among the neighbours it is refused, or
    /// taken without the target's link-layer address with the policy `parts`. Returns an error if out of memory; nothing has changed then.
    pub(crate) fn hear_redirect(
        &mut self,
        now: u64,
        heard: &Heard<'_>,
        redirect: &Redirect,
        outs: &mut Reports<A>,
    ) -> Result<Answer, AllocError>
        requires moment { IsMoment now }
        requires settled { now < next_of self.old }
        requires body { heard.now.message.body ≡ bodies.Redirect redirect.now }
        ensures adds { IfOk result (λ answer. AddsMessage R.stream self.old self.new outs.old.items outs.new.items now heard.now.source heard.now.destination (record { body = bodies.Redirect redirect.now; options = options_read self.old heard.now.message.options }) (answer_of answer)) }
        ensures keeps { OnErr result (self.new ≡ self.old) }
        ensures told { OnErr result (outs.new.items ≡ outs.old.items) }
        ensures full { (limit : Table) (start : Start) (c : Chronicle) → Stands R.stream start self.old c → last_moment start.at c ≤ now → Fills start ((now, Passed) ∷ c) now heard.now.source (record { body = bodies.Redirect redirect.now; options = options_read self.old heard.now.message.options }) (bodies.Redirect redirect.now) (Some limit) → self.old.policies.parts ≡ false → 0 < outs.old.free → IsOk result }
    {
        nd_neighbour::laws::none_overdue();
        nd_neighbour::laws::one_is_pushed_out();
        nd_neighbour::laws::an_end_ends_once();
        let news = news_of(
            heard.source,
            &heard.message.body,
            heard.message.options,
            self.own_mac(),
        );
        let speakers = self.policies.speakers();
        let place = has_place(&self.neighbours, now, news, speakers);
        if !place && !self.policies.parts() {
            return self.refuse(now, Refusal::Full(Limit::Neighbours), outs);
        }
        let taken = news_in_place(news, place);
        outs.reserve(MAX_WAITING + MOST_ROWS + most_told_of_way(speakers))?;
        // Section 8.3: the Destination Cache: "so that subsequent traffic will go to the specified target".
        self.choice
            .redirected(redirect.destination, redirect.target)?;
        self.report_heard(now, heard, outs);
        let times = times_in_force(&self.params);
        // Section 8.3: the target's link-layer address, and that it is a router if it is not the destination.
        let gone = hear_giver(
            &mut self.neighbours,
            &mut self.choice,
            now,
            taken,
            times,
            speakers,
            outs,
        );
        note_way(&mut self.routers, &mut self.choice, gone);
        tell_ignored(outs, now, place, Limit::Neighbours);
        Ok(Answer::Done)
    }
}
