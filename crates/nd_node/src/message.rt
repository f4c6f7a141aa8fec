//! Handles a valid message for this node.

ghost use Rattle.std.specs.Prelude.{◌≡◌, ◌+◌, ◌++◌, [], ◌∷◌, ◌-◌, ◌<◌, ◌≤◌, ℕ, List, IsOk, OnOk, OnErr, IfOk};
ghost use Rattle.nd_decode.specs.Pieces.{options_left};
ghost use Rattle.nd_decode.specs.declared.body.Body.TheVariants as bodies;
ghost use Rattle.nd_decode.specs.declared.router_advertisement.RouterAdvertisement.{RouterAdvertisement};
ghost use Rattle.nd_table.specs.Moment.{IsMoment};
ghost use Rattle.nd_chronicle.specs.Start.{Start};
ghost use Rattle.nd_validity.specs.Hearing.{valid};
ghost use Rattle.nd_chronicle.specs.Event.{VerdictAdds};
ghost use Rattle.nd_chronicle.specs.Happening.{Chronicle, Dropped, Passed, last_moment};
ghost use Rattle.nd_chronicle.specs.Hearing.{Judges, Verdict};
ghost use Rattle.nd_out.specs.declared.out.Out.TheVariants as reports;
ghost use Rattle.nd_node.specs.Frame.{AddsAlone, Stays};
ghost use Rattle.nd_node.specs.Hearing.{AddsMessage, parts_read};
ghost use Rattle.nd_node.specs.Memory.{AddsNoName, AddsRefusal};
ghost use Rattle.nd_node.specs.Answer.{answer_of};

use crate::answer::Answer;
use crate::node::Node;
use nd_addr::Why;
use nd_decode::Body;
use nd_out::{Out, Reports};
use nd_validity::Heard;
use rand_core::Rng;
use std::alloc::{AllocError, Allocator};

/// The most rows that a message adds, besides those of the packets that it releases: itself, a duplicate address or an answer, the address for which a
/// caller waited, and a router that leaves the list or a limit of which a part was passed over.
pub(crate) const MOST_ROWS: usize = 4;

/// Reports a valid message for this node, at `now` in milliseconds, into room that was made before.
pub(crate) fn push_heard<A: Allocator>(outs: &mut Reports<A>, now: u64, heard: &Heard<'_>)
    requires { 0 < outs.old.free }
    ensures items { outs.new.items ≡ outs.old.items ++ (now, reports.Heard heard.now.source heard.now.destination heard.now.message.body) ∷ [] }
    ensures len { outs.new.free + 1 ≡ outs.old.free }
{
    let report = Out::Heard {
        source: heard.source,
        destination: heard.destination,
        body: heard.message.body,
    };
    outs.push_reserved((now, report));
}

impl<R: Rng + Drop, A: Allocator + Clone> Node<R, A> {
    ghost use Rattle.nd_node.specs.NodeKept.{Stands, next_of};

    /// Reports a valid message for this node, at `now` in milliseconds, into room that was made before, and advances the clock: the message can no
    /// longer fail. The caller applies what it says.
    pub(crate) fn report_heard(&mut self, now: u64, heard: &Heard<'_>, outs: &mut Reports<A>)
        requires { 0 < outs.old.free }
        ensures clock { self.new ≡ record self.old { last = now } }
        ensures items { outs.new.items ≡ outs.old.items ++ (now, reports.Heard heard.now.source heard.now.destination heard.now.message.body) ∷ [] }
        ensures len { outs.new.free + 1 ≡ outs.old.free }
    {
        self.advance_to(now);
        push_heard(outs, now, heard);
    }

    /// Reports at `now`, in milliseconds, that a frame is dropped, with the reason `why`. Returns an error if out of memory; nothing has changed
    /// then.
    pub(crate) fn drop_frame(
        &mut self,
        now: u64,
        why: Why,
        outs: &mut Reports<A>,
    ) -> Result<Answer, AllocError>
        requires settled { now < next_of self.old }
        ensures adds { OnOk result (AddsAlone R.stream self.old self.new outs.old.items outs.new.items now (Dropped why)) }
        ensures answer { IfOk result (λ answer. answer ≡ Answer.Done) }
        ensures clock { OnOk result (self.new ≡ record self.old { last = now }) }
        ensures keeps { OnErr result (self.new ≡ self.old) }
        ensures told { OnErr result (outs.new.items ≡ outs.old.items) }

        // If the list has room for the report it succeeds, even if no memory is left.
        ensures quiet { 0 < outs.old.free → IsOk result }
    {
        self.report(now, Out::Dropped(why), outs)?;
        Ok(Answer::Done)
    }

    /// Handles a valid message for this node at `now`, in milliseconds (RFC 4861, sections 6.2.6, 6.3.4, 7.2.3, 7.2.5 and 8.3). Returns an error if
    /// out of memory; nothing has happened then.
    #[inline(always)]
    pub(crate) fn hear_message(
        &mut self,
        now: u64,
        heard: &Heard<'_>,
        outs: &mut Reports<A>,
    ) -> Result<Answer, AllocError>
        requires moment { IsMoment now }
        requires settled { now < next_of self.old }
        ensures adds { IfOk result (λ answer. AddsMessage R.stream self.old self.new outs.old.items outs.new.items now heard.now.source heard.now.destination (parts_read self.old heard.now.message) (answer_of answer)) }
        ensures stays { OnErr result (Stays R.stream self.old self.new) }
        ensures told { OnErr result (outs.new.items ≡ outs.old.items) }
        ensures refused { (frame : List ℕ) (verdict : Verdict) (start : Start) (c : Chronicle) → Stands R.stream start self.old c → last_moment start.at c ≤ now → Judges start ((now, Passed) ∷ c) now frame (valid heard.now.source heard.now.destination (parts_read self.old heard.now.message)) verdict → AddsRefusal now c (VerdictAdds start now frame verdict) → 0 < outs.old.free → IsOk result }
        ensures quiet { (ra : RouterAdvertisement) → heard.now.message.body ≡ bodies.Ra ra → AddsNoName self.old now heard.now.source (options_left heard.now.message.options) outs.old.free → IsOk result }
    {
        match &heard.message.body {
            Body::Rs => self.hear_router_solicitation(now, heard, outs),
            Body::Ra(ra) => self.hear_router_advertisement(now, heard, ra, outs),
            Body::Ns(ns) => self.hear_neighbor_solicitation(now, heard, ns, outs),
            Body::Na(na) => self.hear_neighbor_advertisement(now, heard, na, outs),
            Body::Redirect(redirect) => self.hear_redirect(now, heard, redirect, outs),
        }
    }
}
