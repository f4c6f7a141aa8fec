//! Receives a frame.

ghost use Rattle.std.specs.Prelude.{◌≡◌, ◌∷◌, ◌-◌, ◌<◌, ◌≤◌, ℕ, List, IsOk, OnErr, OnOk, false, IfOk};
ghost use Rattle.nd_addr.specs.Ip6.{packet_parts};
ghost use Rattle.nd_decode.specs.Pieces.{options_left};
ghost use Rattle.nd_decode.specs.declared.body.Body.TheVariants as bodies;
ghost use Rattle.nd_decode.specs.declared.router_advertisement.RouterAdvertisement.{RouterAdvertisement};
ghost use Rattle.nd_validity.specs.Hearing.{Hears, other, valid};
ghost use Rattle.nd_addr.specs.declared.why.Why.{Why};
ghost use Rattle.nd_table.specs.Moment.{IsMoment};
ghost use Rattle.nd_chronicle.specs.Start.{Start};
ghost use Rattle.nd_chronicle.specs.Happening.{Chronicle, Dropped, Passed, last_moment};
ghost use Rattle.nd_chronicle.specs.Solicited.{IsReadAt};
ghost use Rattle.nd_chronicle.specs.Hearing.{IsHeard, Judges, Verdict, drops};
ghost use Rattle.nd_chronicle.specs.Event as events;
ghost use Rattle.nd_chronicle.specs.Event.{EventAdds, VerdictAdds};
ghost use Rattle.nd_node.specs.EventKept.{AddsEvent};
ghost use Rattle.nd_node.specs.Frame.{AddsAlone, Stays};
ghost use Rattle.nd_node.specs.Hearing.{LeavesTables, parts_read};
ghost use Rattle.nd_node.specs.Memory.{AddsNoName, AddsRefusal, AsksForNone};
ghost use Rattle.nd_node.specs.Answer.{answer_of};

use crate::answer::Answer;
use crate::node::Node;
use nd_addr::{Ip6Ref, Why};
use nd_out::{Out, Reports};
use nd_steps::packet_in;
use nd_validity::{Heard, Hearing, hear};
use rand_core::Rng;
use std::alloc::{AllocError, Allocator};

/// How a node took a frame.
#[derive(Clone, Copy, Debug, PartialEq, Eq)]
pub struct Reception {
    /// How it took the event.
    pub answer: Answer,
    /// False if the frame was dropped, or its packet went to the upper layer: nothing of the node has changed then but the moment up to which time has passed.
    pub changes_tables: bool,
}

impl<R: Rng + Drop, A: Allocator + Clone> Node<R, A> {
    ghost use Rattle.nd_node.specs.NodeKept.{Stands, next_of};

    /// Passes a packet that is no message of Neighbor Discovery to the upper layer if its destination is an assigned address, and sends it on to
    /// another node if it is in transit (RFC 8200, section 3).
    fn hear_packet(
        &mut self,
        now: u64,
        frame: &[u8],
        packet: Ip6Ref<'_>,
        outs: &mut Reports<A>,
    ) -> Result<Reception, AllocError>
        requires moment { IsMoment now }
        requires settled { now < next_of self.old }
        requires by_frame { Hears frame.now self.old.role (other (packet_parts packet)) }
        ensures adds { IfOk result (λ reception. AddsEvent R.stream self.old self.new outs.old.items outs.new.items now (events.Receives frame.now) (answer_of reception.answer)) }
        ensures leaves { IfOk result (λ reception. reception.changes_tables ≡ false → self.new ≡ record self.old { last = now }) }
        ensures idle { (verdict : Verdict) (start : Start) (c : Chronicle) → Stands R.stream start self.old c → last_moment start.at c ≤ now → Judges start ((now, Passed) ∷ c) now frame.now (other (packet_parts packet.entry)) verdict → LeavesTables verdict → IfOk result (λ reception. reception.changes_tables ≡ false) }
        ensures stays { OnErr result (Stays R.stream self.old self.new) }
        ensures told { OnErr result (outs.new.items ≡ outs.old.items) }
        ensures refused { (verdict : Verdict) (start : Start) (c : Chronicle) → Stands R.stream start self.old c → last_moment start.at c ≤ now → Judges start ((now, Passed) ∷ c) now frame.now (other (packet_parts packet.entry)) verdict → AddsRefusal now c (VerdictAdds start now frame.now verdict) → 0 < outs.old.free → IsOk result }
        ensures quiet { (why : Why) (start : Start) (c : Chronicle) → Stands R.stream start self.old c → last_moment start.at c ≤ now → Judges start ((now, Passed) ∷ c) now frame.now (other (packet_parts packet.entry)) (drops why) → 0 < outs.old.free → IsOk result }
    {
        if !self.is_packet_for_us(&packet.header) {
            if self.is_in_transit(frame, &packet.header) {
                let answer = self.forward(now, frame, &packet, outs)?;
                return Ok(Reception {
                    answer,
                    changes_tables: true,
                });
            }
            return self.drop_unheard(now, Why::NotForUs, outs);
        }
        let mut up = Vec::new(outs.allocator().clone()?);
        up.extend_from_slice(packet_in(frame, packet.payload.len()))?;
        self.report(now, Out::Up(up), outs)?;
        Ok(Reception {
            answer: Answer::Done,
            changes_tables: false,
        })
    }

    /// Drops a frame, with the reason `why`, before anything of it is heard. Returns an error if out of memory; nothing has changed then.
    fn drop_unheard(
        &mut self,
        now: u64,
        why: Why,
        outs: &mut Reports<A>,
    ) -> Result<Reception, AllocError>
        requires settled { now < next_of self.old }
        ensures adds { OnOk result (AddsAlone R.stream self.old self.new outs.old.items outs.new.items now (Dropped why)) }
        ensures answer { IfOk result (λ reception. reception ≡ record { answer = Answer.Done; changes_tables = false }) }
        ensures clock { OnOk result (self.new ≡ record self.old { last = now }) }
        ensures keeps { OnErr result (self.new ≡ self.old) }
        ensures told { OnErr result (outs.new.items ≡ outs.old.items) }
        ensures quiet { 0 < outs.old.free → IsOk result }
    {
        let answer = self.drop_frame(now, why, outs)?;
        Ok(Reception {
            answer,
            changes_tables: false,
        })
    }

    /// Handles a valid message, as the policies read it, if it is for this node and from where it has to be.
    #[inline(always)]
    fn judge_message(
        &mut self,
        now: u64,
        heard: &Heard<'_>,
        outs: &mut Reports<A>,
    ) -> Result<Reception, AllocError>
        requires moment { IsMoment now }
        requires settled { now < next_of self.old }
        ensures adds { IfOk result (λ reception. (frame : List ℕ) → ((start : Start) (c : Chronicle) → Stands R.stream start self.old c → IsReadAt start ((now, Passed) ∷ c) now frame (valid heard.now.source heard.now.destination (parts_read self.old heard.now.message))) → AddsEvent R.stream self.old self.new outs.old.items outs.new.items now (events.Receives frame) (answer_of reception.answer)) }
        ensures leaves { IfOk result (λ reception. reception.changes_tables ≡ false → self.new ≡ record self.old { last = now }) }
        ensures idle { (frame : List ℕ) (verdict : Verdict) (start : Start) (c : Chronicle) → Stands R.stream start self.old c → last_moment start.at c ≤ now → Judges start ((now, Passed) ∷ c) now frame (valid heard.now.source heard.now.destination (parts_read self.old heard.now.message)) verdict → LeavesTables verdict → IfOk result (λ reception. reception.changes_tables ≡ false) }
        ensures stays { OnErr result (Stays R.stream self.old self.new) }
        ensures told { OnErr result (outs.new.items ≡ outs.old.items) }
        ensures refused { (frame : List ℕ) (verdict : Verdict) (start : Start) (c : Chronicle) → Stands R.stream start self.old c → last_moment start.at c ≤ now → Judges start ((now, Passed) ∷ c) now frame (valid heard.now.source heard.now.destination (parts_read self.old heard.now.message)) verdict → AddsRefusal now c (VerdictAdds start now frame verdict) → 0 < outs.old.free → IsOk result }
        ensures quiet { (ra : RouterAdvertisement) → heard.now.message.body ≡ bodies.Ra ra → AddsNoName self.old now heard.now.source (options_left heard.now.message.options) outs.old.free → IsOk result }
        ensures dropped { (frame : List ℕ) (why : Why) (start : Start) (c : Chronicle) → Stands R.stream start self.old c → last_moment start.at c ≤ now → Judges start ((now, Passed) ∷ c) now frame (valid heard.now.source heard.now.destination (parts_read self.old heard.now.message)) (drops why) → 0 < outs.old.free → IsOk result }
    {
        if !self.is_for_us(heard) {
            return self.drop_unheard(now, Why::NotForUs, outs);
        }
        if !self.is_from_first_hop(now, heard) {
            return self.drop_unheard(now, Why::NotFirstHop, outs);
        }
        let answer = self.hear_message(now, heard, outs)?;
        Ok(Reception {
            answer,
            changes_tables: true,
        })
    }

    /// Receives a frame at `now`, in milliseconds, up to which nothing is due. The frame is dropped for the first reason that holds; a message for
    /// this node is heard, and another packet for this node goes to the upper layer (RFC 4861, sections 6.1, 7.1 and 8.1). Returns an error if out
    /// of memory; nothing has happened then.
    pub fn hear_frame(
        &mut self,
        now: u64,
        frame: &[u8],
        outs: &mut Reports<A>,
    ) -> Result<Reception, AllocError>
        requires moment { IsMoment now }
        requires settled { now < next_of self.old }
        ensures adds { IfOk result (λ reception. AddsEvent R.stream self.old self.new outs.old.items outs.new.items now (events.Receives frame.now) (answer_of reception.answer)) }
        ensures leaves { IfOk result (λ reception. reception.changes_tables ≡ false → self.new ≡ record self.old { last = now }) }
        ensures idle { (verdict : Verdict) (start : Start) (c : Chronicle) → Stands R.stream start self.old c → last_moment start.at c ≤ now → IsHeard start ((now, Passed) ∷ c) now frame.now verdict → LeavesTables verdict → IfOk result (λ reception. reception.changes_tables ≡ false) }
        ensures stays { OnErr result (Stays R.stream self.old self.new) }
        ensures told { OnErr result (outs.new.items ≡ outs.old.items) }
        ensures refused { (start : Start) (c : Chronicle) → Stands R.stream start self.old c → last_moment start.at c ≤ now → AddsRefusal now c (EventAdds start now (events.Receives frame.now)) → 0 < outs.old.free → IsOk result }
        ensures quiet { (start : Start) (c : Chronicle) → Stands R.stream start self.old c → last_moment start.at c ≤ now → AsksForNone start c self.old now outs.old.free (events.Receives frame.now) → IsOk result }
    {
        match hear(frame, self.role) {
            Hearing::Drop(why) => self.drop_unheard(now, why, outs),
            Hearing::Other(packet) => self.hear_packet(now, frame, packet, outs),
            Hearing::Valid(mut heard) => {
                self.policies.read_message(&mut heard.message);
                self.read_answer(now, &mut heard.message.body);
                self.judge_message(now, &heard, outs)
            }
        }
    }
    /// Receives a frame as `hear_frame` does, and returns how the node took the event.
    pub fn judge_frame(
        &mut self,
        now: u64,
        frame: &[u8],
        outs: &mut Reports<A>,
    ) -> Result<Answer, AllocError>
        requires moment { IsMoment now }
        requires settled { now < next_of self.old }
        ensures adds { IfOk result (λ answer. AddsEvent R.stream self.old self.new outs.old.items outs.new.items now (events.Receives frame.now) (answer_of answer)) }
        ensures stays { OnErr result (Stays R.stream self.old self.new) }
        ensures told { OnErr result (outs.new.items ≡ outs.old.items) }
        ensures refused { (start : Start) (c : Chronicle) → Stands R.stream start self.old c → last_moment start.at c ≤ now → AddsRefusal now c (EventAdds start now (events.Receives frame.now)) → 0 < outs.old.free → IsOk result }
        ensures quiet { (start : Start) (c : Chronicle) → Stands R.stream start self.old c → last_moment start.at c ≤ now → AsksForNone start c self.old now outs.old.free (events.Receives frame.now) → IsOk result }
    {
        let reception = self.hear_frame(now, frame, outs)?;
        Ok(reception.answer)
    }
}
