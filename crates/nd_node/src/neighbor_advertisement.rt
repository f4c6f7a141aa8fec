//! Handles a Neighbor Advertisement (RFC 4861, section 7.2.5; RFC 4862, section 5.4.4).

ghost use Rattle.std.specs.Prelude.{◌≡◌, ◌∷◌, ◌<◌, ◌≤◌, ◌&&◌, ◌||◌, List, Some, IsOk, OnErr, IfOk};
ghost use Rattle.nd_addr.specs.Number.{number_of};
ghost use Rattle.nd_decode.specs.declared.body.Body.TheVariants as bodies;
ghost use Rattle.nd_table.specs.Moment.{IsMoment};
ghost use Rattle.nd_table.specs.Announcements.{stands};
ghost use Rattle.nd_routers.specs.History.{RouterRow, announcements};
ghost use Rattle.nd_routers.specs.Routers.{same};
ghost use Rattle.nd_routers.specs.RoutersKept as routers;
ghost use Rattle.nd_chronicle.specs.Full.{Fills};
ghost use Rattle.nd_chronicle.specs.Happening.{Chronicle, Limit as Table, Passed, last_moment};
ghost use Rattle.nd_chronicle.specs.Start.{Start, is_host};
ghost use Rattle.nd_node.specs.Hearing.{AddsMessage, options_read};
ghost use Rattle.nd_node.specs.Answer.{answer_of};

use crate::answer::Answer;
use crate::message::MOST_ROWS;
use crate::node::Node;
use nd_addr::{Addr, Role};
use nd_decode::NeighborAdvertisement;
use nd_out::Reports;
use nd_packet::MAX_WAITING;
use nd_steps::{end_router, hear_holder, hear_of_neighbour, news_of, times_in_force};
use nd_validity::Heard;
use rand_core::Rng;
use std::alloc::{AllocError, Allocator};

impl<R: Rng + Drop, A: Allocator + Clone> Node<R, A> {
    ghost use Rattle.nd_node.specs.NodeKept.{Stands, next_of};

    /// Returns true if a neighbour that is no longer a router ends as one at `now`, in milliseconds, where `ends`: it is in the list of default routers, or the
    /// policy `strict` ends it at a host without that (RFC 4861, sections 7.2.5 and 7.3.3).
    fn ends_router(&self, now: u64, neighbour: Addr, ends: bool) -> bool
        ensures { (history : List RouterRow) → routers.Stands self.now.routers history → result ≡ (ends && ((self.now.policies.strict && is_host self.now.role) || stands same (number_of neighbour.0) (announcements history) now)) }
    {
        if !ends {
            return false;
        }
        if self.policies.strict() && self.role == Role::Host {
            return true;
        }
        self.routers.holds(now, neighbour)
    }

    /// Handles a Neighbor Advertisement at `now`, in milliseconds (RFC 4861, section 7.2.5; RFC 4862, section 5.4.4). If its target is one of the
    /// node's own tentative addresses, this address is a duplicate. The neighbour's entry takes what the advertisement says, and the packets that
    /// wait for its link-layer address are sent. A router that has stopped being one leaves the list. Returns an error if out of memory; nothing
    /// has changed then.
    pub(crate) fn hear_neighbor_advertisement(
        &mut self,
        now: u64,
        heard: &Heard<'_>,
        na: &NeighborAdvertisement,
        outs: &mut Reports<A>,
    ) -> Result<Answer, AllocError>
        requires moment { IsMoment now }
        requires settled { now < next_of self.old }
        requires body { heard.now.message.body ≡ bodies.Na na.now }
        ensures adds { IfOk result (λ answer. AddsMessage R.stream self.old self.new outs.old.items outs.new.items now heard.now.source heard.now.destination (record { body = bodies.Na na.now; options = options_read self.old heard.now.message.options }) (answer_of answer)) }
        ensures keeps { OnErr result (self.new ≡ self.old) }
        ensures told { OnErr result (outs.new.items ≡ outs.old.items) }
        ensures full { (limit : Table) (start : Start) (c : Chronicle) → Stands R.stream start self.old c → last_moment start.at c ≤ now → Fills start ((now, Passed) ∷ c) now heard.now.source (record { body = bodies.Na na.now; options = options_read self.old heard.now.message.options }) (bodies.Na na.now) (Some limit) → 0 < outs.old.free → IsOk result }
    {
        nd_neighbour::laws::none_overdue();
        nd_neighbour::laws::one_is_pushed_out();
        nd_slaac::laws::none_overdue();
        let news = news_of(
            heard.source,
            &heard.message.body,
            heard.message.options,
            self.own_mac(),
        );
        outs.reserve(MAX_WAITING + MOST_ROWS)?;
        self.report_heard(now, heard, outs);
        // RFC 4862, section 5.4.4: an advertisement for a tentative address shows that this address is not unique.
        hear_holder(&mut self.addresses, &mut self.choice, now, na.target, outs);
        // RFC 4861, section 7.2.5: the entry of the target, and the packets that waited for its link-layer address.
        let times = times_in_force(&self.params);
        let ends = hear_of_neighbour(
            &mut self.neighbours,
            &mut self.choice,
            now,
            news,
            times,
            outs,
        );
        let leaves = self.ends_router(now, na.target, ends);
        // Section 7.2.5: "In those cases where the IsRouter flag changes from TRUE to FALSE as a result of this update, the node MUST remove that
        // router from the Default Router List".
        end_router(
            &mut self.routers,
            &mut self.choice,
            now,
            na.target,
            leaves,
            outs,
        );
        Ok(Answer::Done)
    }
}
