//! Addresses that are given by hand, and withdrawn (RFC 4862, section 5.4).

ghost use Rattle.std.specs.Prelude.{◌≡◌, ◌<◌, IfOk, IsOk, OnErr};
ghost use Rattle.nd_table.specs.Moment.{IsMoment};
ghost use Rattle.nd_chronicle.specs.Event as events;
ghost use Rattle.nd_node.specs.Answer.{answer_of};
ghost use Rattle.nd_node.specs.EventKept.{AddsEvent};

use crate::answer::Answer;
use crate::node::Node;
use nd_addr::Addr;
use nd_out::{Limit, Out, Refusal, Reports};
use nd_slaac::OwnAddress;
use rand_core::Rng;
use std::alloc::{AllocError, Allocator};

impl<R: Rng + Drop, A: Allocator + Clone> Node<R, A> {
    ghost use Rattle.nd_node.specs.NodeKept.{next_of};

    /// Gives the node an address at `now`, in milliseconds: it is tried as any other (RFC 4862, section 5.4), or has other lifetimes from now on if
    /// it is known. The link-local address stays as it is. Returns an error if out of memory; nothing has changed then.
    pub(crate) fn set_address(
        &mut self,
        now: u64,
        own: &OwnAddress,
        outs: &mut Reports<A>,
    ) -> Result<Answer, AllocError>
        requires moment { IsMoment now }
        requires settled { now < next_of self.old }
        ensures adds { IfOk result (λ answer. AddsEvent R.stream self.old self.new outs.old.items outs.new.items now (events.Sets own.now) (answer_of answer)) }
        ensures keeps { OnErr result (self.new ≡ self.old) }
        ensures told { OnErr result (outs.new.items ≡ outs.old.items) }

        // If the list has room for a refusal it succeeds, even if no memory is left.
        ensures ready { 0 < outs.old.free → IsOk result }
    {
        nd_slaac::laws::none_overdue();
        if let Some(refusal) = self.refusal_unless_up() {
            return self.refuse(now, refusal, outs);
        }
        let retrans = self.params.retrans_timer();
        match self.addresses.set_by_hand(now, own, retrans) {
            Ok(_) => {
                self.choice.changed();
                self.advance_to(now);
                Ok(Answer::Done)
            }
            Err(_) => self.refuse(now, Refusal::Full(Limit::Addresses), outs),
        }
    }

    /// Removes an address at `now`, in milliseconds, in whatever state it is, and reports that. One that isn't known changes nothing, nor does the
    /// link-local address, which stays. Returns an error if out of memory; nothing has changed then.
    pub(crate) fn withdraw_address(
        &mut self,
        now: u64,
        addr: Addr,
        outs: &mut Reports<A>,
    ) -> Result<Answer, AllocError>
        requires moment { IsMoment now }
        requires settled { now < next_of self.old }
        ensures adds { IfOk result (λ answer. AddsEvent R.stream self.old self.new outs.old.items outs.new.items now (events.Withdraws addr) (answer_of answer)) }
        ensures keeps { OnErr result (self.new ≡ self.old) }
        ensures told { OnErr result (outs.new.items ≡ outs.old.items) }

        // If the list has room for the report it succeeds, even if no memory is left.
        ensures ready { 0 < outs.old.free → IsOk result }
    {
        nd_slaac::laws::none_overdue();
        outs.reserve(1)?;
        if !self.addresses.withdraw(addr) {
            self.advance_to(now);
            return Ok(Answer::Done);
        }
        self.choice.changed();
        outs.push_reserved((now, Out::EndedAddress(addr)));
        self.advance_to(now);
        Ok(Answer::Done)
    }
}
