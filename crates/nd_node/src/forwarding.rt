//! A packet in transit, which a router sends on (RFC 8200, section 3; RFC 4861, section 8.2).

ghost use Rattle.std.specs.Prelude.{◌≡◌, ◌<◌, ◌≤◌, ℕ, List, None, IsOk, OnErr, OnOk, Some, length, IfOk};
ghost use Rattle.nd_addr.specs.Ip6.{PacketParts, packet_parts};
ghost use Rattle.nd_addr.specs.Number.{number_of};
ghost use Rattle.nd_table.specs.Moment.{IsMoment};
ghost use Rattle.nd_chronicle.specs.Event.{packet_bytes};
ghost use Rattle.nd_chronicle.specs.Forwarding.{ForwardAdds, SendsOn, redirect_to};
ghost use Rattle.nd_chronicle.specs.Happening.{Chronicle};
ghost use Rattle.nd_chronicle.specs.OwnAddress.{is_own};
ghost use Rattle.nd_chronicle.specs.Start.{Start};
ghost use Rattle.nd_node.specs.Forwarding.{AddsForwarded, AddsLostInTransit, AddsOnward, AddsSentOn};
ghost use Rattle.nd_node.specs.Hearing.{Keeps};
ghost use Rattle.nd_node.specs.Memory.{AddsRefusal};
ghost use Rattle.nd_out.specs.Out.{loss_of};
ghost use Rattle.nd_validity.specs.Hearing.{Hears, other};
ghost use Rattle.nd_node.specs.Answer.{answer_of};

use crate::answer::Answer;
use crate::node::Node;
use nd_addr::{Addr, Ip6, Ip6Ref};
use nd_forwarding::Fate;
use nd_out::{Limit, Loss, Refusal, Reports};
use nd_slaac::Counted;
use nd_steps::{
    better_hop_frame, frame_as_it_came, frame_sent_on, link_local, packet_in, ready_for_two,
};
use rand_core::Rng;
use std::alloc::{AllocError, Allocator};

impl<R: Rng + Drop, A: Allocator + Clone> Node<R, A> {
    ghost use Rattle.nd_node.specs.NodeKept.{Stands, next_of};

    /// Sends a packet in transit on to its next hop. It is lost if there is no route or its hop limit doesn't allow another hop (RFC 8200, section
    /// 3). `frame` is the frame as received at `now`, in milliseconds, up to which nothing is due. Returns an error if out of memory; nothing has
    /// changed then.
    pub(crate) fn forward(
        &mut self,
        now: u64,
        frame: &[u8],
        packet: &Ip6Ref<'_>,
        outs: &mut Reports<A>,
    ) -> Result<Answer, AllocError>
        requires moment { IsMoment now }
        requires settled { now < next_of self.old }
        requires by_frame { Hears frame.now self.old.role (other (packet_parts packet.now)) }
        ensures adds { IfOk result (λ answer. AddsForwarded R.stream self.old self.new outs.old.items outs.new.items now (packet_parts packet.now) (packet_bytes frame.now) (answer_of answer)) }
        ensures keeps { OnErr result (Keeps self.old self.new) }
        ensures told { OnErr result (outs.new.items ≡ outs.old.items) }
        ensures refused { (came : List ℕ) (start : Start) (c : Chronicle) → Stands R.stream start self.old c → AddsRefusal now c (ForwardAdds start now (packet_parts packet.now) came) → 0 < outs.old.free → IsOk result }
    {
        let header = &packet.header;
        let own = self.addresses.counts(Counted::Own, header.destination);
        let bytes = packet_in(frame, packet.payload.len());
        match self.router.routes.forward(header, own) {
            Fate::NoRoute => self.lose_in_transit(now, Loss::NoRoute, packet, outs),
            Fate::HopLimit => self.lose_in_transit(now, Loss::HopLimit, packet, outs),
            Fate::Direct => self.send_on(now, header.destination, own, packet, bytes, outs),
            Fate::Via(router) => self.send_on(now, router, own, packet, bytes, outs),
        }
    }

    /// Reports that a packet in transit is lost, with the reason `why` and the packet as received. Returns an error if out of memory; nothing has
    /// changed then.
    fn lose_in_transit(
        &mut self,
        now: u64,
        why: Loss,
        packet: &Ip6Ref<'_>,
        outs: &mut Reports<A>,
    ) -> Result<Answer, AllocError>
        requires settled { now < next_of self.old }
        requires short { length packet.now.payload.now ≤ 65535 }
        ensures adds { OnOk result (AddsLostInTransit R.stream self.old self.new outs.old.items outs.new.items now (loss_of why) (packet_parts packet.now)) }
        ensures answer { IfOk result (λ answer. answer ≡ Answer.Done) }
        ensures keeps { OnErr result (Keeps self.old self.new) }
        ensures told { OnErr result (outs.new.items ≡ outs.old.items) }
    {
        let frame = frame_as_it_came(outs.allocator().clone()?, self.mac, packet)?;
        self.lose(now, why, frame, outs)?;
        Ok(Answer::Done)
    }

    /// Returns the target of the Redirect that is sent at `now`, in milliseconds, before a packet is forwarded, if one is (RFC 4861, section 8.2):
    /// none if the packet's source is one of the node's own addresses. `own`: its destination is one of them.
    fn redirect_target(&self, now: u64, header: &Ip6, own: bool) -> Option<Addr>
        ensures { (start : Start) (c : Chronicle) (packet : PacketParts) → Stands R.stream start self.now c → packet.header ≡ header.now → is_own c header.now.destination.0 ≡ own → result ≡ redirect_to start now packet c }
    {
        let target = self.router.routes.redirect_for(now, header, own)?;
        if self.addresses.counts(Counted::Own, header.source) {
            return None;
        }
        Some(target)
    }

    /// Forwards a packet to `hop`, preceded by a Redirect if the sender has a better first hop (RFC 4861, section 8.2). `own`: its destination is
    /// one of the node's own addresses; `bytes` is the packet as received, from its IPv6 header on. Room for the neighbours is asked before a
    /// frame is made. Returns an error if out of memory; nothing has changed then.
    fn send_on(
        &mut self,
        now: u64,
        hop: Addr,
        own: bool,
        packet: &Ip6Ref<'_>,
        bytes: &[u8],
        outs: &mut Reports<A>,
    ) -> Result<Answer, AllocError>
        requires moment { IsMoment now }
        requires settled { now < next_of self.old }
        requires short { length packet.now.payload.now ≤ 65535 }
        ensures adds { IfOk result (λ answer. AddsOnward R.stream self.old self.new outs.old.items outs.new.items now (number_of hop.0) own (packet_parts packet.now) bytes.now (answer_of answer)) }
        ensures keeps { OnErr result (Keeps self.old self.new) }
        ensures told { OnErr result (outs.new.items ≡ outs.old.items) }
        ensures refused { (came : List ℕ) (start : Start) (c : Chronicle) → Stands R.stream start self.old c → is_own c packet.now.header.destination.0 ≡ own → AddsRefusal now c (SendsOn start now (redirect_to start now (packet_parts packet.now) c) (packet_parts packet.now) came (number_of hop.0)) → 0 < outs.old.free → IsOk result }
    {
        match self.redirect_target(now, &packet.header, own) {
            None => {
                nd_neighbour::laws::room_is_place();
                nd_neighbour::laws::full_by_history();
                if !self.neighbours.room(now, hop, None) {
                    return self.refuse_neighbour(now, hop, outs);
                }
                let frame = frame_sent_on(outs.allocator().clone()?, self.mac, packet)?;
                self.send_to(now, hop, frame, outs)
            }
            Some(target) => self.redirect_and_send(now, hop, target, packet, bytes, outs),
        }
    }

    /// Sends a Redirect for `target` to the packet's sender, then the packet to `hop` (RFC 4861, section 8.2). Both are refused if there is no room
    /// for one of the two neighbours. Returns an error if out of memory; nothing has changed then.
    fn redirect_and_send(
        &mut self,
        now: u64,
        hop: Addr,
        target: Addr,
        packet: &Ip6Ref<'_>,
        bytes: &[u8],
        outs: &mut Reports<A>,
    ) -> Result<Answer, AllocError>
        requires moment { IsMoment now }
        requires settled { now < next_of self.old }
        requires short { length packet.now.payload.now ≤ 65535 }
        ensures adds { IfOk result (λ answer. AddsSentOn R.stream self.old self.new outs.old.items outs.new.items now (number_of hop.0) (Some target) (packet_parts packet.now) bytes.now (answer_of answer)) }
        ensures keeps { OnErr result (Keeps self.old self.new) }
        ensures told { OnErr result (outs.new.items ≡ outs.old.items) }
        ensures refused { (came : List ℕ) (start : Start) (c : Chronicle) → Stands R.stream start self.old c → AddsRefusal now c (SendsOn start now (Some target) (packet_parts packet.now) came (number_of hop.0)) → 0 < outs.old.free → IsOk result }
    {
        let source = packet.header.source;
        if !self.neighbours.room(now, source, Some(hop)) {
            return self.refuse(now, Refusal::Full(Limit::Neighbours), outs);
        }
        let alloc = outs.allocator().clone()?;
        let own = link_local(&self.addresses);
        let redirect = better_hop_frame(
            &alloc,
            self.mac,
            own,
            &self.neighbours,
            target,
            packet,
            bytes,
        )?;
        let frame = frame_sent_on(alloc, self.mac, packet)?;
        let (first, second) = ready_for_two(&mut self.neighbours, outs)?;
        self.router.routes.redirected(now);
        self.advance_to(now);
        self.go(now, source, redirect, Some(first), outs);
        self.go(now, hop, frame, Some(second), outs);
        Ok(Answer::Done)
    }
}
