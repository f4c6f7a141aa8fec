//! Sends a packet of the upper layer, or a whole packet (RFC 4861, section 5.2).

ghost use Rattle.std.specs.Prelude.{◌≡◌, ◌||◌, ◌<◌, ◌≤◌, length, ℕ, List, None, IsOk, OnErr, OnOk, false, true, option_map, Some, IfOk};
ghost use Rattle.nd_addr.specs.Frame.{written_frame};
ghost use Rattle.nd_addr.specs.Ip6.{packet_parts};
ghost use Rattle.nd_addr.specs.Number.{number_of};
ghost use Rattle.nd_table.specs.Moment.{IsMoment};
ghost use Rattle.nd_chronicle.specs.Event as events;
ghost use Rattle.nd_chronicle.specs.Event.{EventAdds, HopAdds, PacketAdds, is_of_others, refusal_of_carried, refusal_of_packet};
ghost use Rattle.nd_chronicle.specs.Happening.{Chronicle, Lost, Sent, last_moment};
ghost use Rattle.nd_chronicle.specs.OwnAddress.{is_assigned};
ghost use Rattle.nd_chronicle.specs.Packet.{GoesIfPlaced};
ghost use Rattle.nd_chronicle.specs.Start.{Start};
ghost use Rattle.nd_compose.specs.Frames.{open_mac};
ghost use Rattle.nd_neighbour.specs.RoomKept.{has_room};
ghost use Rattle.nd_nexthop.specs.NextHop.{direct};
ghost use Rattle.nd_nexthop.specs.NextHopKept.{hop_of};
ghost use Rattle.nd_node.specs.EventKept.{AddsEvent};
ghost use Rattle.nd_node.specs.Frame.{AddsAlone, Stays};
ghost use Rattle.nd_node.specs.Hearing.{Keeps};
ghost use Rattle.nd_node.specs.Memory.{AddsRefusal};
ghost use Rattle.nd_node.specs.OutgoingPacket.{AddsByHop, AddsPacket, AddsToNeighbour};
ghost use Rattle.nd_out.specs.Out.{loss_of, refusal_of};
ghost use Rattle.nd_node.specs.Answer.{answer_of};

use crate::answer::Answer;
use crate::node::Node;
use nd_addr::{Addr, Ip6, Ip6Ref, Mac, Role};
use nd_compose::OPEN_MAC;
use nd_forwarding::may_be_forwarded;
use nd_nexthop::Hop;
use nd_out::{Limit, Loss, Out, Refusal, Reports};
use nd_packet::Packet;
use nd_slaac::Counted;
use nd_steps::{Datagram, frame_to, is_too_long, ready_for};
use rand_core::Rng;
use std::alloc::{AllocError, Allocator};

impl<R: Rng + Drop, A: Allocator + Clone> Node<R, A> {
    ghost use Rattle.nd_node.specs.NodeKept.{Stands, next_of};

    /// Returns why a packet is refused, the first reason that holds: the link-local address is a duplicate (RFC 4862, section 5.4.5), the source
    /// isn't assigned, or the packet is too long. It takes no memory.
    #[inline(always)]
    fn refusal_of(&self, source: Addr, payload: &[u8]) -> Option<Refusal>
        ensures says { (start : Start) (now : ℕ) (c : Chronicle) → Stands R.stream start self.now c → option_map refusal_of result ≡ refusal_of_packet start now source payload.now c }
        ensures short { result ≡ None → length payload.now ≤ 65535 }
    {
        let own = self.addresses.link_local();
        if self.addresses.is_duplicate(own) {
            return Some(Refusal::Disabled);
        }
        if !self.addresses.counts(Counted::Assigned, source) {
            return Some(Refusal::NotOurs(source));
        }
        let mtu = self.params.mtu();
        if is_too_long(payload, mtu) {
            return Some(Refusal::TooLong);
        }
        None
    }

    /// Returns true if a whole packet was sent by another node, and a router may carry it: its source is none of the node's own addresses, and neither
    /// address keeps it on its link (RFC 4291, section 2.5.6).
    fn is_of_others(&self, header: &Ip6) -> bool
        ensures { (start : Start) (now : ℕ) (c : Chronicle) (payload : List ℕ) → Stands R.stream start self.now c → result ≡ is_of_others start now (record { header = header.now; payload = payload }) c }
    {
        let is_router = match self.role {
            Role::Host => false,
            Role::Router => true,
        };
        is_router && !self.addresses.counts(Counted::Own, header.source) && may_be_forwarded(header)
    }

    /// Returns true if the node may send a packet with this header as it is: its source is one of the node's assigned addresses, or it is one of others that
    /// a router carries.
    fn may_carry(&self, header: &Ip6) -> bool
        ensures { (start : Start) (now : ℕ) (c : Chronicle) (payload : List ℕ) → Stands R.stream start self.now c → result ≡ (is_assigned c header.now.source.0 || is_of_others start now (record { header = header.now; payload = payload }) c) }
    {
        self.addresses.counts(Counted::Assigned, header.source) || self.is_of_others(header)
    }

    /// Returns why a whole packet is refused, the first reason that holds: the link-local address is a duplicate (RFC 4862, section 5.4.5), or isn't
    /// assigned yet; the packet is neither from one of the node's assigned addresses nor one of others that a router carries; it is too long. It takes
    /// no memory.
    fn refusal_of_carried(&self, packet: &Ip6Ref<'_>) -> Option<Refusal>
        ensures says { (start : Start) (now : ℕ) (c : Chronicle) → Stands R.stream start self.now c → option_map refusal_of result ≡ refusal_of_carried start now (packet_parts packet.now) c }
        ensures short { result ≡ None → length packet.now.payload.now ≤ 65535 }
    {
        if let Some(refusal) = self.refusal_unless_up() {
            return Some(refusal);
        }
        if !self.may_carry(&packet.header) {
            return Some(Refusal::NotOurs(packet.header.source));
        }
        let mtu = self.params.mtu();
        if is_too_long(packet.payload, mtu) {
            return Some(Refusal::TooLong);
        }
        None
    }

    /// Reports that a packet is lost, with the reason `why` (RFC 4861, section 5.2; RFC 8200, section 3). Returns an error if out of memory;
    /// nothing has changed then.
    pub(crate) fn lose(
        &mut self,
        now: u64,
        why: Loss,
        packet: Packet<A>,
        outs: &mut Reports<A>,
    ) -> Result<(), AllocError>
        requires settled { now < next_of self.old }
        ensures adds { OnOk result (AddsAlone R.stream self.old self.new outs.old.items outs.new.items now (Lost (loss_of why) packet)) }
        ensures keeps { OnErr result (Keeps self.old self.new) }
        ensures told { OnErr result (outs.new.items ≡ outs.old.items) }
    {
        self.report(now, Out::Lost(why, packet), outs)
    }

    /// Sends a packet whose Ethernet destination is known (RFC 2464, section 7). Returns an error if out of memory; nothing has changed then.
    fn send_at_once(
        &mut self,
        now: u64,
        packet: Packet<A>,
        outs: &mut Reports<A>,
    ) -> Result<Answer, AllocError>
        requires settled { now < next_of self.old }
        ensures adds { OnOk result (AddsAlone R.stream self.old self.new outs.old.items outs.new.items now (Sent packet)) }
        ensures answer { IfOk result (λ answer. answer ≡ Answer.Done) }
        ensures keeps { OnErr result (Keeps self.old self.new) }
        ensures told { OnErr result (outs.new.items ≡ outs.old.items) }
    {
        self.report(now, Out::Frame(packet), outs)?;
        Ok(Answer::Done)
    }

    /// Refuses a packet to a neighbour for which there is no room. Returns an error if out of memory; nothing has changed then.
    pub(crate) fn refuse_neighbour(
        &mut self,
        now: u64,
        to: Addr,
        outs: &mut Reports<A>,
    ) -> Result<Answer, AllocError>
        requires settled { now < next_of self.old }
        requires full { has_room self.old.neighbours.limit now (number_of to.0) None self.old.neighbours.entries ≡ false }
        ensures adds { IfOk result (λ answer. (packet : List ℕ) → AddsToNeighbour R.stream self.old self.new outs.old.items outs.new.items now (number_of to.0) packet (answer_of answer)) }
        ensures keeps { OnErr result (Keeps self.old self.new) }
        ensures told { OnErr result (outs.new.items ≡ outs.old.items) }
        ensures ready { 0 < outs.old.free → IsOk result }
    {
        nd_neighbour::laws::full_by_history();
        self.refuse(now, Refusal::Full(Limit::Neighbours), outs)
    }

    /// Sends a packet to a neighbour for which there is room (RFC 4861, sections 7.2.2 and 7.3.3). Returns an error if out of memory; nothing
    /// has changed then.
    pub(crate) fn send_to(
        &mut self,
        now: u64,
        to: Addr,
        packet: Packet<A>,
        outs: &mut Reports<A>,
    ) -> Result<Answer, AllocError>
        requires moment { IsMoment now }
        requires settled { now < next_of self.old }
        requires room { has_room self.old.neighbours.limit now (number_of to.0) None self.old.neighbours.entries ≡ true }
        ensures adds { IfOk result (λ answer. AddsToNeighbour R.stream self.old self.new outs.old.items outs.new.items now (number_of to.0) packet (answer_of answer)) }
        ensures keeps { OnErr result (Keeps self.old self.new) }
        ensures told { OnErr result (outs.new.items ≡ outs.old.items) }
    {
        nd_neighbour::laws::room_is_place();
        nd_neighbour::laws::full_by_history();
        let solicitation = ready_for(&mut self.neighbours, to, outs)?;
        self.advance_to(now);
        self.go(now, to, packet, solicitation, outs);
        Ok(Answer::Done)
    }

    /// Sends a packet to a neighbour, or refuses it if there is no room for the neighbour, before a frame is made. Returns an error if out of memory;
    /// nothing has changed then.
    #[inline(always)]
    fn send_to_neighbour(
        &mut self,
        now: u64,
        to: Addr,
        packet: &Ip6Ref<'_>,
        outs: &mut Reports<A>,
    ) -> Result<Answer, AllocError>
        requires moment { IsMoment now }
        requires settled { now < next_of self.old }
        requires short { length packet.now.payload.now ≤ 65535 }
        ensures adds { IfOk result (λ answer. AddsToNeighbour R.stream self.old self.new outs.old.items outs.new.items now (number_of to.0) (written_frame open_mac self.old.mac packet.now.header packet.now.payload.now) (answer_of answer)) }
        ensures keeps { OnErr result (Keeps self.old self.new) }
        ensures told { OnErr result (outs.new.items ≡ outs.old.items) }
        ensures refused { (frame : List ℕ) (start : Start) (c : Chronicle) → Stands R.stream start self.old c → AddsRefusal now c (GoesIfPlaced start now (number_of to.0) frame) → 0 < outs.old.free → IsOk result }
    {
        nd_neighbour::laws::room_is_place();
        nd_neighbour::laws::full_by_history();
        if !self.neighbours.room(now, to, None) {
            return self.refuse_neighbour(now, to, outs);
        }
        let frame = frame_to(outs.allocator().clone()?, OPEN_MAC, self.mac, packet)?;
        self.send_to(now, to, frame, outs)
    }

    /// Sends a packet whose destination is on the link: at once to a multicast address, for which there is no entry (RFC 2464, section 7), and
    /// otherwise as to a neighbour. Returns an error if out of memory; nothing has changed then.
    fn send_directly(
        &mut self,
        now: u64,
        packet: &Ip6Ref<'_>,
        outs: &mut Reports<A>,
    ) -> Result<Answer, AllocError>
        requires moment { IsMoment now }
        requires settled { now < next_of self.old }
        requires short { length packet.now.payload.now ≤ 65535 }
        ensures adds { IfOk result (λ answer. AddsPacket R.stream self.old self.new outs.old.items outs.new.items now direct (packet_parts packet.now) (answer_of answer)) }
        ensures keeps { OnErr result (Keeps self.old self.new) }
        ensures told { OnErr result (outs.new.items ≡ outs.old.items) }
        ensures refused { (start : Start) (c : Chronicle) → Stands R.stream start self.old c → AddsRefusal now c (PacketAdds start now direct (packet_parts packet.now)) → 0 < outs.old.free → IsOk result }
    {
        let destination = packet.header.destination;
        if destination.is_multicast() {
            let to = Mac::multicast(destination);
            let frame = frame_to(outs.allocator().clone()?, to, self.mac, packet)?;
            return self.send_at_once(now, frame, outs);
        }
        self.send_to_neighbour(now, destination, packet, outs)
    }

    /// Sends a packet to its next hop, or loses it if it has none (RFC 4861, section 5.2). Returns an error if out of memory; nothing has
    /// changed then.
    fn send_by_hop(
        &mut self,
        now: u64,
        hop: Hop,
        packet: &Ip6Ref<'_>,
        outs: &mut Reports<A>,
    ) -> Result<Answer, AllocError>
        requires moment { IsMoment now }
        requires settled { now < next_of self.old }
        requires short { length packet.now.payload.now ≤ 65535 }
        ensures adds { IfOk result (λ answer. AddsPacket R.stream self.old self.new outs.old.items outs.new.items now (hop_of hop) (packet_parts packet.now) (answer_of answer)) }
        ensures keeps { OnErr result (Keeps self.old self.new) }
        ensures told { OnErr result (outs.new.items ≡ outs.old.items) }
        ensures refused { (start : Start) (c : Chronicle) → Stands R.stream start self.old c → AddsRefusal now c (PacketAdds start now (hop_of hop) (packet_parts packet.now)) → 0 < outs.old.free → IsOk result }
    {
        match hop {
            Hop::Direct => self.send_directly(now, packet, outs),
            Hop::Via(router) => self.send_to_neighbour(now, router, packet, outs),
            Hop::NoRoute => {
                let frame = frame_to(outs.allocator().clone()?, OPEN_MAC, self.mac, packet)?;
                self.lose(now, Loss::NoRoute, frame, outs)?;
                Ok(Answer::NoRoute)
            }
        }
    }

    /// Sends a packet that is not refused to the next hop that it has (RFC 4861, section 5.2). Returns an error if out of memory; nothing has happened
    /// then.
    fn send_unrefused(
        &mut self,
        now: u64,
        packet: &Ip6Ref<'_>,
        outs: &mut Reports<A>,
    ) -> Result<Answer, AllocError>
        requires moment { IsMoment now }
        requires settled { now < next_of self.old }
        requires short { length packet.now.payload.now ≤ 65535 }
        ensures adds { IfOk result (λ answer. AddsByHop R.stream self.old self.new outs.old.items outs.new.items now (packet_parts packet.now) (answer_of answer)) }
        ensures stays { OnErr result (Stays R.stream self.old self.new) }
        ensures told { OnErr result (outs.new.items ≡ outs.old.items) }
        ensures refused { (start : Start) (c : Chronicle) → Stands R.stream start self.old c → last_moment start.at c ≤ now → AddsRefusal now c (HopAdds start now (packet_parts packet.now)) → 0 < outs.old.free → IsOk result }
    {
        let hop = self.hop_of_packet(now, packet.header.destination);
        self.send_by_hop(now, hop, packet, outs)
    }

    /// Sends a packet of the upper layer at `now`, in milliseconds, up to which nothing is due: refuses it for the first reason that holds, or
    /// sends it to its next hop (RFC 4861, section 5.2). Returns an error if out of memory; nothing has happened then.
    pub fn send_packet(
        &mut self,
        now: u64,
        packet: &Datagram<'_>,
        outs: &mut Reports<A>,
    ) -> Result<Answer, AllocError>
        requires moment { IsMoment now }
        requires settled { now < next_of self.old }
        ensures adds { IfOk result (λ answer. AddsEvent R.stream self.old self.new outs.old.items outs.new.items now (events.Sends packet.now.source packet.now.destination packet.now.next_header packet.now.payload.now) (answer_of answer)) }
        ensures stays { OnErr result (Stays R.stream self.old self.new) }
        ensures told { OnErr result (outs.new.items ≡ outs.old.items) }
        ensures refused { (start : Start) (c : Chronicle) → Stands R.stream start self.old c → last_moment start.at c ≤ now → AddsRefusal now c (EventAdds start now (events.Sends packet.now.source packet.now.destination packet.now.next_header packet.now.payload.now)) → 0 < outs.old.free → IsOk result }
    {
        if let Some(refusal) = self.refusal_of(packet.source, packet.payload) {
            return self.refuse(now, refusal, outs);
        }
        let whole = packet.with_header(self.params.hop_limit());
        self.send_unrefused(now, &whole, outs)
    }

    /// Sends a whole packet at `now`, in milliseconds, up to which nothing is due, as it is: refuses it for the first reason that holds, or sends it to
    /// its next hop (RFC 4861, section 5.2). Returns an error if out of memory; nothing has happened then.
    pub fn carry_packet(
        &mut self,
        now: u64,
        packet: &Ip6Ref<'_>,
        outs: &mut Reports<A>,
    ) -> Result<Answer, AllocError>
        requires moment { IsMoment now }
        requires settled { now < next_of self.old }
        ensures adds { IfOk result (λ answer. AddsEvent R.stream self.old self.new outs.old.items outs.new.items now (events.Carries (packet_parts packet.now)) (answer_of answer)) }
        ensures stays { OnErr result (Stays R.stream self.old self.new) }
        ensures told { OnErr result (outs.new.items ≡ outs.old.items) }
        ensures refused { (start : Start) (c : Chronicle) → Stands R.stream start self.old c → last_moment start.at c ≤ now → AddsRefusal now c (EventAdds start now (events.Carries (packet_parts packet.now))) → 0 < outs.old.free → IsOk result }
    {
        if let Some(refusal) = self.refusal_of_carried(packet) {
            return self.refuse(now, refusal, outs);
        }
        self.send_unrefused(now, packet, outs)
    }
}
