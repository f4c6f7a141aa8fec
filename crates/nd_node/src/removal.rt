//! Removes a neighbour, by a command.

ghost use Rattle.std.specs.Prelude.{◌≡◌, ◌-◌, ◌<◌, ◌≤◌, IsOk, OnErr, length, IfOk};
ghost use Rattle.nd_addr.specs.Number.{number_of};
ghost use Rattle.nd_chronicle.specs.Event as events;
ghost use Rattle.nd_neighbour.specs.Removal.{waiting_at};
ghost use Rattle.nd_neighbour.specs.TableKept.{entry_in};
ghost use Rattle.nd_node.specs.EventKept.{AddsEvent};
ghost use Rattle.nd_node.specs.Answer.{answer_of};

use crate::answer::Answer;
use crate::node::Node;
use nd_addr::Addr;
use nd_out::{Loss, Reports};
use nd_steps::tell_lost;
use rand_core::Rng;
use std::alloc::{AllocError, Allocator};

impl<R: Rng + Drop, A: Allocator + Clone> Node<R, A> {
    ghost use Rattle.nd_node.specs.NodeKept.{next_of};

    /// Removes a neighbour at `now`, in milliseconds; the packets that wait for it are lost, the oldest first. This is no failure of the neighbour:
    /// no redirect to it ends. Returns an error if out of memory; nothing has changed then.
    pub(crate) fn forget(
        &mut self,
        now: u64,
        neighbour: Addr,
        outs: &mut Reports<A>,
    ) -> Result<Answer, AllocError>
        requires settled { now < next_of self.old }
        ensures adds { IfOk result (λ answer. AddsEvent R.stream self.old self.new outs.old.items outs.new.items now (events.Forgets neighbour) (answer_of answer)) }
        ensures keeps { OnErr result (self.new ≡ self.old) }
        ensures told { OnErr result (outs.new.items ≡ outs.old.items) }

        // If the list has room for the waiting packets it succeeds, even if no memory is left.
        ensures quiet { length (waiting_at (entry_in (number_of neighbour.0) self.old.neighbours.entries)) ≤ outs.old.free → IsOk result }
    {
        nd_neighbour::laws::none_overdue();
        let waiting = self.neighbours.waiting_at(neighbour);
        outs.reserve(waiting)?;
        let packets = self.neighbours.forget(neighbour);
        self.choice.changed();
        tell_lost(outs, now, Loss::Forgotten, packets);
        self.advance_to(now);
        Ok(Answer::Done)
    }
}
