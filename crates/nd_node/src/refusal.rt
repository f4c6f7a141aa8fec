//! Why a node refuses what needs its link-local address, and the report of a refusal.

ghost use Rattle.std.specs.Prelude.{◌≡◌, ◌<◌, IsOk, OnErr, OnOk, IfOk};
ghost use Rattle.std.specs.Option.{option_map};
ghost use Rattle.nd_chronicle.specs.Happening.{Chronicle, Refused};
ghost use Rattle.nd_chronicle.specs.OwnAddress.{refusal_unless_up};
ghost use Rattle.nd_chronicle.specs.Start.{Start};
ghost use Rattle.nd_node.specs.Frame.{AddsAlone};
ghost use Rattle.nd_out.specs.Out.{refusal_of};

use crate::answer::Answer;
use crate::node::Node;
use nd_out::{Out, Refusal, Reports};
use rand_core::Rng;
use std::alloc::{AllocError, Allocator};

impl<R: Rng + Drop, A: Allocator + Clone> Node<R, A> {
    ghost use Rattle.nd_node.specs.NodeKept.{Stands, next_of};

    /// Returns why the node refuses what needs its link-local address, the first reason that holds: the address is a duplicate (RFC 4862, section 5.4.5),
    /// or isn't assigned yet.
    pub(crate) fn refusal_unless_up(&self) -> Option<Refusal>
        ensures { (start : Start) (c : Chronicle) → Stands R.stream start self.now c → option_map refusal_of result ≡ refusal_unless_up start c }
    {
        let own = self.addresses.link_local();
        if self.addresses.is_duplicate(own) {
            return Some(Refusal::Disabled);
        }
        if !self.is_up() {
            return Some(Refusal::Tentative);
        }
        None
    }

    /// Reports at `now`, in milliseconds, that the node refuses what was asked, with the reason. Returns an error if out of memory; nothing has
    /// changed then.
    pub(crate) fn refuse(
        &mut self,
        now: u64,
        refusal: Refusal,
        outs: &mut Reports<A>,
    ) -> Result<Answer, AllocError>
        requires settled { now < next_of self.old }
        ensures adds { OnOk result (AddsAlone R.stream self.old self.new outs.old.items outs.new.items now (Refused (refusal_of refusal))) }
        ensures answer { IfOk result (λ answer. answer ≡ Answer.Refused refusal) }
        ensures keeps { OnErr result (self.new ≡ self.old) }
        ensures told { OnErr result (outs.new.items ≡ outs.old.items) }

        // If the list has room for the report it succeeds, even if no memory is left.
        ensures ready { 0 < outs.old.free → IsOk result }
    {
        self.report(now, Out::Refused(refusal), outs)?;
        Ok(Answer::Refused(refusal))
    }
}
