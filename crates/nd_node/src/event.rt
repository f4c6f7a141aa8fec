//! Events: what a node receives from outside, and what it does then.

ghost use Rattle.std.specs.Prelude.{◌≡◌, ◌-◌, ◌<◌, ◌≤◌, Some, IsOk, OnOk, OnErr, IfOk};
ghost use Rattle.nd_addr.specs.Ip6.{packet_parts};
ghost use Rattle.nd_table.specs.Moment.{IsMoment};
ghost use Rattle.nd_chronicle.specs.Event as events;
ghost use Rattle.nd_chronicle.specs.Event.{EventAdds, refusal_of_packet};
ghost use Rattle.nd_chronicle.specs.Happening.{Chronicle, Refusal as Why, last_moment};
ghost use Rattle.nd_chronicle.specs.Start.{Start};
ghost use Rattle.nd_node.specs.Event.{event_of, events_of, FollowsBy, AreEarly, RunsBy, RunsInPart};
ghost use Rattle.nd_node.specs.EventKept.{AddsEvent};
ghost use Rattle.nd_node.specs.Frame.{Stays};
ghost use Rattle.nd_node.specs.Memory.{AddsRefusal, AsksForNone};
ghost use Rattle.nd_node.specs.Time.{Leads, Onward};
ghost use Rattle.nd_node.specs.Answer.{answer_of};

use crate::answer::Answer;
use crate::clearing::Clearable;
use crate::node::Node;
use nd_addr::{Addr, Ip6Ref};
use nd_advertiser::{Config, Offer};
use nd_forwarding::KeptRoute;
use nd_out::{Out, Reports};
use nd_slaac::OwnAddress;
use nd_steps::{Datagram, OutgoingPacket, WholePacket};
use rand_core::Rng;
use std::alloc::{AllocError, Allocator};

/// What a node receives from outside.
#[derive(Drop)]
pub enum Event<A: Allocator> {
    /// Time passes.
    Passes,
    /// A frame is received, from its Ethernet destination on (RFC 2464, section 3).
    Receives(Vec<u8, A>),
    /// The upper layer sends a packet (RFC 4861, section 5.2).
    Sends(OutgoingPacket<A>),
    /// A stack passes a whole packet, which it has built or received on another interface, to be sent as it is.
    Carries(WholePacket<A>),
    /// A caller that keeps its packets asks where those to a destination go (RFC 4861, sections 5.2, 7.2.2 and 7.3.3).
    Resolves(Addr),
    /// An upper layer confirms that a neighbour is reachable (RFC 4861, section 7.3.1).
    Confirms(Addr),
    /// A command removes a neighbour.
    Forgets(Addr),
    /// A command clears a table.
    Clears(Clearable),
    /// A command configures a router to advertise (RFC 4861, section 6.2.1). A host refuses it, and the three that follow.
    Advertises(Config),
    /// A command adds a prefix to those that a router advertises (RFC 4861, section 6.2.1).
    Offers(Offer),
    /// A command gives a router a static route.
    PutsRoute(KeptRoute),
    /// A command ceases a router's advertising (RFC 4861, section 6.2.5).
    Stops,
    /// A command gives the node an address, or other lifetimes to a known one (RFC 4862, section 5.4).
    Sets(OwnAddress),
    /// A command removes one of the node's own addresses, but not the link-local one.
    Withdraws(Addr),
}

impl<R: Rng + Drop, A: Allocator + Clone> Node<R, A> {
    ghost use Rattle.nd_node.specs.NodeKept.{Stands, next_of};

    /// Passes an event to the node at `now`, in milliseconds. The node first does all that is due up to `now`, this millisecond included, and then
    /// what the event adds. Returns how the node took the event. One earlier than the node's last moment is only reported as past.
    ///
    /// Returns an error if out of memory: a part of what is due may have been done and reported then, and the event has added nothing.
    #[inline(always)]
    pub fn event(
        &mut self,
        now: u64,
        event: &Event<A>,
        outs: &mut Reports<A>,
    ) -> Result<Answer, AllocError>
        requires { IsMoment now }
        ensures follows { IfOk result (λ answer. Leads R.stream self.old self.new outs.old.items outs.new.items (FollowsBy now (event_of event.now) (answer_of answer))) }
        ensures onward { OnErr result (Leads R.stream self.old self.new outs.old.items outs.new.items (Onward now)) }

        // If nothing is due up to `now` and the event asks for no memory, or if the event is too late, it succeeds even if no memory is left.
        ensures quiet { (start : Start) (c : Chronicle) → Stands R.stream start self.old c → last_moment start.at c ≤ now → now < next_of self.old → AsksForNone start c self.old now outs.old.free (event_of event.now) → IsOk result }
        ensures late { now < self.old.last → 0 < outs.old.free → IsOk result }

        // If nothing is due up to `now` and the event is refused, the refusal is reported even if no memory is left.
        ensures refused { (start : Start) (c : Chronicle) → Stands R.stream start self.old c → last_moment start.at c ≤ now → now < next_of self.old → AddsRefusal now c (EventAdds start now (event_of event.now)) → 0 < outs.old.free → IsOk result }
    {
        if self.is_past(now) {
            return self.refuse_past(now, outs);
        }
        self.settle(now, outs)?;
        self.add(now, event, outs)
    }

    /// Receives a frame that the caller keeps, from its Ethernet destination on (RFC 2464, section 3): the event `Receives` without a copy of the
    /// frame. The node first does all that is due up to `now`, in milliseconds. Returns as `event` does.
    ///
    /// Returns an error if out of memory: a part of what is due may have been done and reported then, and the frame has changed nothing.
    pub fn receive(
        &mut self,
        now: u64,
        frame: &[u8],
        outs: &mut Reports<A>,
    ) -> Result<Answer, AllocError>
        requires { IsMoment now }
        ensures follows { IfOk result (λ answer. Leads R.stream self.old self.new outs.old.items outs.new.items (FollowsBy now (events.Receives frame.now) (answer_of answer))) }
        ensures onward { OnErr result (Leads R.stream self.old self.new outs.old.items outs.new.items (Onward now)) }

        // As `event`: it succeeds even if no memory is left, if nothing is due and the frame asks for none or is refused, or if it is too late.
        ensures quiet { (start : Start) (c : Chronicle) → Stands R.stream start self.old c → last_moment start.at c ≤ now → now < next_of self.old → AsksForNone start c self.old now outs.old.free (events.Receives frame.now) → IsOk result }
        ensures late { now < self.old.last → 0 < outs.old.free → IsOk result }
        ensures refused { (start : Start) (c : Chronicle) → Stands R.stream start self.old c → last_moment start.at c ≤ now → now < next_of self.old → AddsRefusal now c (EventAdds start now (events.Receives frame.now)) → 0 < outs.old.free → IsOk result }
    {
        if self.is_past(now) {
            return self.refuse_past(now, outs);
        }
        self.settle(now, outs)?;
        self.judge_frame(now, frame, outs)
    }

    /// Sends a packet of the upper layer whose payload the caller keeps (RFC 4861, section 5.2): the event `Sends` without a copy of the payload. The node
    /// first does all that is due up to `now`, in milliseconds. Returns as `event` does.
    ///
    /// Returns an error if out of memory: a part of what is due may have been done and reported then, and the packet has changed nothing.
    pub fn send(
        &mut self,
        now: u64,
        source: Addr,
        destination: Addr,
        next_header: u8,
        payload: &[u8],
        outs: &mut Reports<A>,
    ) -> Result<Answer, AllocError>
        requires { IsMoment now }
        ensures follows { IfOk result (λ answer. Leads R.stream self.old self.new outs.old.items outs.new.items (FollowsBy now (events.Sends source destination next_header payload.now) (answer_of answer))) }
        ensures onward { OnErr result (Leads R.stream self.old self.new outs.old.items outs.new.items (Onward now)) }

        // As `event`, if it is too late. If nothing is due up to `now` and the packet is refused before its next hop is determined, the refusal is
        // reported even if no memory is left, however long the payload is.
        ensures late { now < self.old.last → 0 < outs.old.free → IsOk result }
        ensures refused { (refusal : Why) (start : Start) (c : Chronicle) → Stands R.stream start self.old c → last_moment start.at c ≤ now → now < next_of self.old → refusal_of_packet start now source payload.now c ≡ Some refusal → 0 < outs.old.free → IsOk result }
    {
        if self.is_past(now) {
            return self.refuse_past(now, outs);
        }
        self.settle(now, outs)?;
        let packet = Datagram {
            source,
            destination,
            next_header,
            payload,
        };
        self.send_packet(now, &packet, outs)
    }

    /// Sends a whole packet that the caller keeps, as it is: the event `Carries` without a copy of the packet. The node first does all that is due up to
    /// `now`, in milliseconds. Returns as `event` does.
    ///
    /// Returns an error if out of memory: a part of what is due may have been done and reported then, and the packet has changed nothing.
    pub fn carry(
        &mut self,
        now: u64,
        packet: &Ip6Ref<'_>,
        outs: &mut Reports<A>,
    ) -> Result<Answer, AllocError>
        requires { IsMoment now }
        ensures follows { IfOk result (λ answer. Leads R.stream self.old self.new outs.old.items outs.new.items (FollowsBy now (events.Carries (packet_parts packet.now)) (answer_of answer))) }
        ensures onward { OnErr result (Leads R.stream self.old self.new outs.old.items outs.new.items (Onward now)) }

        // As `event`, if it is too late, or if nothing is due up to `now` and the packet is refused.
        ensures late { now < self.old.last → 0 < outs.old.free → IsOk result }
        ensures refused { (start : Start) (c : Chronicle) → Stands R.stream start self.old c → last_moment start.at c ≤ now → now < next_of self.old → AddsRefusal now c (EventAdds start now (events.Carries (packet_parts packet.now))) → 0 < outs.old.free → IsOk result }
    {
        if self.is_past(now) {
            return self.refuse_past(now, outs);
        }
        self.settle(now, outs)?;
        self.carry_packet(now, packet, outs)
    }

    /// Passes events to the node in their order, each with its moment, in milliseconds.
    ///
    /// Returns an error if out of memory: the first events have been handled then, and a part of what is due up to the next one may have been done;
    /// all of that is reported.
    pub fn run(
        &mut self,
        events: &[(u64, Event<A>)],
        outs: &mut Reports<A>,
    ) -> Result<(), AllocError>
        requires { AreEarly events.now }
        ensures runs { OnOk result (Leads R.stream self.old self.new outs.old.items outs.new.items (RunsBy (events_of events.now))) }
        ensures in_part { OnErr result (Leads R.stream self.old self.new outs.old.items outs.new.items (RunsInPart (events_of events.now))) }
    {
        for (at, event) in events {
            self.event(*at, event, outs)?;
        }
        Ok(())
    }

    /// Reports an event that is earlier than the node's last moment, and changes nothing else. Returns an error if out of memory; nothing is
    /// reported then.
    pub(crate) fn refuse_past(
        &mut self,
        now: u64,
        outs: &mut Reports<A>,
    ) -> Result<Answer, AllocError>
        requires { now < self.old.last }
        ensures past { IfOk result (λ answer. (event : events.Event) → Leads R.stream self.old self.new outs.old.items outs.new.items (FollowsBy now event (answer_of answer))) }
        ensures same { self.new ≡ self.old }
        ensures told { OnErr result (outs.new.items ≡ outs.old.items) }
        ensures ready { 0 < outs.old.free → IsOk result }
    {
        outs.push((now, Out::Past(self.last)))?;
        Ok(Answer::Past(self.last))
    }

    /// Adds what an event adds, once all that is due up to `now` is done. A link calls it, since its nodes take their turns together. An event
    /// earlier than the node's last moment is only reported as past, and the clock stays. Returns an error if out of memory; nothing has happened
    /// then.
    #[inline(always)]
    pub fn add(
        &mut self,
        now: u64,
        event: &Event<A>,
        outs: &mut Reports<A>,
    ) -> Result<Answer, AllocError>
        requires moment { IsMoment now }
        requires settled { now < next_of self.old }
        ensures adds { IfOk result (λ answer. AddsEvent R.stream self.old self.new outs.old.items outs.new.items now (event_of event.now) (answer_of answer)) }
        ensures past { now < self.old.last → IfOk result (λ answer. Leads R.stream self.old self.new outs.old.items outs.new.items (FollowsBy now (event_of event.now) (answer_of answer))) }
        ensures stays { OnErr result (Stays R.stream self.old self.new) }
        ensures told { OnErr result (outs.new.items ≡ outs.old.items) }
        ensures quiet { (start : Start) (c : Chronicle) → Stands R.stream start self.old c → last_moment start.at c ≤ now → AsksForNone start c self.old now outs.old.free (event_of event.now) → IsOk result }
        ensures late { now < self.old.last → 0 < outs.old.free → IsOk result }
        ensures refused { (start : Start) (c : Chronicle) → Stands R.stream start self.old c → last_moment start.at c ≤ now → AddsRefusal now c (EventAdds start now (event_of event.now)) → 0 < outs.old.free → IsOk result }
    {
        if self.is_past(now) {
            return self.refuse_past(now, outs);
        }
        match event {
            Event::Passes => {
                self.pass(now);
                Ok(Answer::Done)
            }
            Event::Receives(frame) => self.judge_frame(now, frame, outs),
            Event::Sends(outgoing) => self.send_packet(now, &outgoing.as_datagram(), outs),
            Event::Carries(packet) => self.carry_packet(now, &packet.as_packet(), outs),
            Event::Resolves(destination) => self.resolve(now, *destination, outs),
            Event::Confirms(neighbour) => {
                self.confirm(now, *neighbour);
                Ok(Answer::Done)
            }
            Event::Forgets(neighbour) => self.forget(now, *neighbour, outs),
            Event::Clears(table) => self.clear(now, *table, outs),
            Event::Advertises(config) => self.advertise(now, *config, outs),
            Event::Offers(offer) => self.offer(now, *offer, outs),
            Event::PutsRoute(kept) => self.put_route(now, *kept, outs),
            Event::Stops => self.cease(now, outs),
            Event::Sets(own) => self.set_address(now, own, outs),
            Event::Withdraws(addr) => self.withdraw_address(now, *addr, outs),
        }
    }
}
