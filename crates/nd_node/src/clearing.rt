//! Clears a table, by a command.

ghost use Rattle.std.specs.Prelude.{◌≡◌, ◌<◌, IsOk, OnErr, IfOk};
ghost use Rattle.nd_chronicle.specs.Event as events;
ghost use Rattle.nd_node.specs.Event.{clearable_of};
ghost use Rattle.nd_node.specs.EventKept.{AddsEvent};
ghost use Rattle.nd_node.specs.Memory.{TellsNothing};
ghost use Rattle.nd_node.specs.Answer.{answer_of};

use crate::answer::Answer;
use crate::node::Node;
use nd_out::Reports;
use nd_steps::{tell_packets, tell_routers};
use rand_core::Rng;
use std::alloc::{AllocError, Allocator};

/// The tables that a command can clear.
#[derive(Clone, Copy, Debug, PartialEq, Eq)]
pub enum Clearable {
    /// The neighbours (RFC 4861, section 5.1).
    Neighbours,
    /// The default routers (RFC 4861, section 5.1). All redirects end with them.
    Routers,
    /// The prefixes on the link (RFC 4861, section 5.1). The addresses that were formed from them stay.
    Prefixes,
    /// The kept redirects (RFC 4861, section 8.3).
    Redirects,
    /// The DNS servers and search names (RFC 8106, section 6.1).
    Dns,
}

impl<R: Rng + Drop, A: Allocator + Clone> Node<R, A> {
    ghost use Rattle.nd_node.specs.NodeKept.{next_of};

    /// Removes all neighbours. The packets that wait for them are lost, in the order of the neighbours' addresses, the oldest first. Returns an
    /// error if out of memory; nothing has changed then.
    fn clear_neighbours(&mut self, now: u64, outs: &mut Reports<A>) -> Result<Answer, AllocError>
        requires settled { now < next_of self.old }
        ensures adds { IfOk result (λ answer. AddsEvent R.stream self.old self.new outs.old.items outs.new.items now (events.Clears events.ClearNeighbours) (answer_of answer)) }
        ensures keeps { OnErr result (self.new ≡ self.old) }
        ensures told { OnErr result (outs.new.items ≡ outs.old.items) }
    {
        let waiting = self.neighbours.waiting();
        outs.reserve(waiting)?;
        let packets = self.neighbours.clear()?;
        self.choice.changed();
        tell_packets(outs, now, packets);
        self.advance_to(now);
        Ok(Answer::Done)
    }

    /// Removes all routers from the list, in its order, and ends all redirects with them (RFC 4861, section 6.3.5). Returns an error if out of
    /// memory; nothing has changed then.
    fn clear_routers(&mut self, now: u64, outs: &mut Reports<A>) -> Result<Answer, AllocError>
        requires settled { now < next_of self.old }
        ensures adds { IfOk result (λ answer. AddsEvent R.stream self.old self.new outs.old.items outs.new.items now (events.Clears events.ClearRouters) (answer_of answer)) }
        ensures keeps { OnErr result (self.new ≡ self.old) }
        ensures told { OnErr result (outs.new.items ≡ outs.old.items) }
    {
        let count = self.routers.len();
        outs.reserve(count)?;
        let routers = self.routers.clear()?;
        self.choice.clear();
        tell_routers(outs, now, &routers);
        self.advance_to(now);
        Ok(Answer::Done)
    }

    /// Clears a table at `now`, in milliseconds. Returns an error if out of memory; nothing has changed then.
    pub(crate) fn clear(
        &mut self,
        now: u64,
        table: Clearable,
        outs: &mut Reports<A>,
    ) -> Result<Answer, AllocError>
        requires settled { now < next_of self.old }
        ensures adds { IfOk result (λ answer. AddsEvent R.stream self.old self.new outs.old.items outs.new.items now (events.Clears (clearable_of table)) (answer_of answer)) }
        ensures keeps { OnErr result (self.new ≡ self.old) }
        ensures told { OnErr result (outs.new.items ≡ outs.old.items) }

        // If there is nothing to report it succeeds, even if no memory is left.
        ensures quiet { TellsNothing (clearable_of table) → IsOk result }
    {
        match table {
            Clearable::Neighbours => return self.clear_neighbours(now, outs),
            Clearable::Routers => return self.clear_routers(now, outs),
            Clearable::Prefixes => {
                self.prefixes.clear();
                self.choice.changed();
                self.choice.until(None);
            }
            Clearable::Redirects => self.choice.clear(),
            Clearable::Dns => self.dns.clear(),
        }
        self.advance_to(now);
        Ok(Answer::Done)
    }
}
