//! Sends a packet to a neighbour (RFC 4861, sections 7.2.2 and 7.3.3). The definition is in `specs/Packet.antt`.

ghost use Rattle.std.specs.Prelude.{◌≡◌, ℕ, ◌+◌, ◌-◌, ◌<◌, ◌≤◌, None, if◌then◌else◌, is_some, true};
ghost use Rattle.std.specs.Option.{option_map};
ghost use Rattle.nd_addr.specs.Number.{mac_at, number_of};
ghost use Rattle.nd_chronicle.specs.Start.{Start};
ghost use Rattle.nd_chronicle.specs.Happening.{Chronicle};
ghost use Rattle.nd_chronicle.specs.NeighborSolicitation.{sent_alone_to};
ghost use Rattle.nd_table.specs.Moment.{IsMoment};
ghost use Rattle.nd_neighbour.specs.RoomKept.{LeavesRoom, has_room};
ghost use Rattle.nd_neighbour.specs.TableKept.{entry_in};
ghost use Rattle.nd_node.specs.Packet.{PacketGoes, ReplyGoes};
ghost use Rattle.nd_node.specs.Time.{Leads};

use crate::node::Node;
use nd_addr::{Addr, Mac};
use nd_compose::FrameRoom;
use nd_out::{Out, Reports};
use nd_packet::Packet;
use nd_steps::{known_mac, link_local, note_use, tell_use, times_in_force};
use rand_core::Rng;
use std::alloc::Allocator;

impl<R: Rng + Drop, A: Allocator + Clone> Node<R, A> {
    ghost use Rattle.nd_node.specs.NodeKept.{Stands};

    /// Sends an answer to the asker of a solicitation, for which there is room, at the moment of the last event, in milliseconds: as any packet to a neighbour,
    /// but with the policy `speakers` it is no use of the asker's entry, if the asker's link-layer address is known (RFC 4861, section 7.2.4). It takes no memory:
    /// the caller has made room as for `go`.
    pub(crate) fn reply(
        &mut self,
        now: u64,
        to: Addr,
        packet: Packet<A>,
        solicitation: Option<FrameRoom<A>>,
        outs: &mut Reports<A>,
    )
        requires moment { IsMoment now }
        requires last { self.old.last ≡ now }
        requires place { has_room self.old.neighbours.limit now (number_of to.0) None self.old.neighbours.entries ≡ true }
        requires ring { entry_in (number_of to.0) self.old.neighbours.entries ≡ None → 0 < self.old.neighbours.rings }
        requires solicitation { entry_in (number_of to.0) self.old.neighbours.entries ≡ None → is_some solicitation ≡ true }
        requires room { 0 < outs.old.free }
        ensures leads { Leads R.stream self.old self.new outs.old.items outs.new.items (ReplyGoes now (number_of to.0) packet) }
    {
        match self.sent_alone_to(to) {
            Some(mac) => outs.push_reserved((now, Out::Frame(packet.addressed(mac)))),
            None => self.go(now, to, packet, solicitation, outs),
        }
    }

    /// Returns the link-layer address to which an answer to an asker is sent without a use of the asker's entry: that of the entry, with the policy `speakers`.
    fn sent_alone_to(&self, to: Addr) -> Option<Mac>
        ensures { (start : Start) (at : ℕ) (c : Chronicle) → Stands R.stream start self.now c → result ≡ option_map mac_at (sent_alone_to start at (number_of to.0) c) }
    {
        if !self.policies.speakers() {
            return None;
        }
        known_mac(&self.neighbours, to)
    }

    /// Sends a packet to a neighbour for which there is room, at the moment of the last event, in milliseconds. The packet waits if the link-layer
    /// address isn't known (RFC 4861, sections 7.2.2 and 7.3.3). It takes no memory: the caller has made room for the solicitation, for what is
    /// reported, and for the ring of a new neighbour.
    pub(crate) fn go(
        &mut self,
        now: u64,
        to: Addr,
        packet: Packet<A>,
        solicitation: Option<FrameRoom<A>>,
        outs: &mut Reports<A>,
    )
        requires moment { IsMoment now }
        requires last { self.old.last ≡ now }
        requires place { has_room self.old.neighbours.limit now (number_of to.0) None self.old.neighbours.entries ≡ true }
        requires ring { entry_in (number_of to.0) self.old.neighbours.entries ≡ None → 0 < self.old.neighbours.rings }
        requires solicitation { entry_in (number_of to.0) self.old.neighbours.entries ≡ None → is_some solicitation ≡ true }
        requires room { 0 < outs.old.free }
        ensures leads { Leads R.stream self.old self.new outs.old.items outs.new.items (PacketGoes now (number_of to.0) packet) }

        // The room that a second packet after this one needs.
        ensures leaves { LeavesRoom self.old.neighbours.limit now (number_of to.0) self.old.neighbours.entries self.new.neighbours.entries }
        ensures limit { self.new.neighbours.limit ≡ self.old.neighbours.limit }
        ensures rings { self.new.neighbours.rings ≡ (if is_some (entry_in (number_of to.0) self.old.neighbours.entries) then self.old.neighbours.rings else self.old.neighbours.rings - 1) }
        ensures places { outs.old.free ≤ outs.new.free + 1 }
        ensures last { self.new.last ≡ self.old.last }
    {
        nd_neighbour::laws::none_overdue();
        nd_neighbour::laws::one_is_pushed_out();
        nd_neighbour::laws::room_is_place();
        let own = link_local(&self.addresses);
        let times = times_in_force(&self.params);
        match self.neighbours.used(now, to, packet, times) {
            Ok(used) => {
                note_use(&mut self.choice, &used);
                tell_use(outs, now, solicitation, self.mac, own, to, used)
            }
            Err(_) => unreachable!(),
        }
    }
}
