//! What a program that prints text asks of a node: an event, or the rows of a table as text. No event of a node shows a table.

ghost use Rattle.std.specs.Prelude.{◌≡◌, ◌<◌, ◌≤◌, IfOk, IsOk, OnErr};
ghost use Rattle.nd_table.specs.Moment.{IsMoment};
ghost use Rattle.nd_chronicle.specs.Event as events;
ghost use Rattle.nd_chronicle.specs.Event.{EventAdds};
ghost use Rattle.nd_chronicle.specs.Happening.{Chronicle, last_moment};
ghost use Rattle.nd_chronicle.specs.Start.{Start};
ghost use Rattle.nd_node.specs.Answer.{answer_of};
ghost use Rattle.nd_node.specs.Event.{FollowsBy, request_of, table_of};
ghost use Rattle.nd_node.specs.EventKept.{AddsEvent};
ghost use Rattle.nd_node.specs.Frame.{Stays};
ghost use Rattle.nd_node.specs.Memory.{AddsRefusal, AsksForNone};
ghost use Rattle.nd_node.specs.Time.{Leads, Onward};

use crate::answer::Answer;
use crate::event::Event;
use crate::node::Node;
use crate::shown::Table;
use nd_out::{Out, Reports};
use rand_core::Rng;
use std::alloc::{AllocError, Allocator};

/// What is asked of a node.
#[derive(Drop)]
pub enum Request<A: Allocator> {
    /// The node receives an event.
    Event(Event<A>),
    /// The rows of a table are shown.
    Shows(Table),
}

impl<R: Rng + Drop, A: Allocator + Clone> Node<R, A> {
    ghost use Rattle.nd_node.specs.NodeKept.{Stands, next_of};

    /// Does all that is due up to `now`, in milliseconds, this millisecond included, and then what the request adds: what its event adds, or a report of the
    /// rows of its table (`Out::Shown`). Returns how the node took it. A request earlier than the node's last moment is only reported as past.
    ///
    /// Returns an error if out of memory: a part of what is due may have been done and reported then, and the request has added nothing.
    pub fn request(
        &mut self,
        now: u64,
        request: &Request<A>,
        outs: &mut Reports<A>,
    ) -> Result<Answer, AllocError>
        requires { IsMoment now }
        ensures follows { IfOk result (λ answer. Leads R.stream self.old self.new outs.old.items outs.new.items (FollowsBy now (request_of request.now) (answer_of answer))) }
        ensures onward { OnErr result (Leads R.stream self.old self.new outs.old.items outs.new.items (Onward now)) }
    {
        if self.is_past(now) {
            return self.refuse_past(now, outs);
        }
        self.settle(now, outs)?;
        self.add_request(now, request, outs)
    }

    /// Adds what a request adds, as `request` does, once all that is due up to `now`, in milliseconds, is done. Returns an error if out of memory; nothing
    /// has happened then.
    pub fn add_request(
        &mut self,
        now: u64,
        request: &Request<A>,
        outs: &mut Reports<A>,
    ) -> Result<Answer, AllocError>
        requires moment { IsMoment now }
        requires settled { now < next_of self.old }
        ensures adds { IfOk result (λ answer. AddsEvent R.stream self.old self.new outs.old.items outs.new.items now (request_of request.now) (answer_of answer)) }
        ensures stays { OnErr result (Stays R.stream self.old self.new) }
        ensures told { OnErr result (outs.new.items ≡ outs.old.items) }
        ensures quiet { (start : Start) (c : Chronicle) → Stands R.stream start self.old c → last_moment start.at c ≤ now → AsksForNone start c self.old now outs.old.free (request_of request.now) → IsOk result }
        ensures late { now < self.old.last → 0 < outs.old.free → IsOk result }
        ensures refused { (start : Start) (c : Chronicle) → Stands R.stream start self.old c → last_moment start.at c ≤ now → AddsRefusal now c (EventAdds start now (request_of request.now)) → 0 < outs.old.free → IsOk result }
    {
        match request {
            Request::Event(event) => self.add(now, event, outs),
            Request::Shows(table) => self.add_shown(now, *table, outs),
        }
    }

    /// Reports the rows of a table at `now`, in milliseconds. Returns an error if out of memory; nothing has happened then.
    fn add_shown(
        &mut self,
        now: u64,
        table: Table,
        outs: &mut Reports<A>,
    ) -> Result<Answer, AllocError>
        requires moment { IsMoment now }
        requires settled { now < next_of self.old }
        ensures adds { IfOk result (λ answer. AddsEvent R.stream self.old self.new outs.old.items outs.new.items now (events.Shows (table_of table)) (answer_of answer)) }
        ensures stays { OnErr result (Stays R.stream self.old self.new) }
        ensures told { OnErr result (outs.new.items ≡ outs.old.items) }
        ensures late { now < self.old.last → 0 < outs.old.free → IsOk result }
    {
        if self.is_past(now) {
            return self.refuse_past(now, outs);
        }
        let rows = self.rows(outs.allocator(), now, table)?;
        self.report(now, Out::Shown(rows), outs)?;
        Ok(Answer::Done)
    }
}
