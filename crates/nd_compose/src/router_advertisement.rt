//! The Router Advertisement that a router sends (RFC 4861, section 6.2.4).

ghost use Rattle.std.specs.Prelude.{◌≡◌};
ghost use Rattle.nd_message.specs.Owned.{whole_of};
ghost use Rattle.nd_message.specs.Spelling.{written_length};
ghost use Rattle.nd_message.specs.WellFormed.{IsWellFormed};
ghost use Rattle.nd_compose.specs.Frames.{router_advertisement_frame};
ghost use Rattle.nd_compose.specs.Room.{HasRoomFor};

use crate::frame_room::FrameRoom;
use nd_addr::{Addr, Mac};
use nd_message::{Body, Opt};
use nd_packet::Packet;
use std::alloc::Allocator;

impl<A: Allocator> FrameRoom<A> {
    /// Returns the frame of a Router Advertisement to all nodes, from one of the node's own addresses (RFC 4861, section 6.2.4).
    pub fn router_advertisement<B: Allocator>(
        self,
        mac: Mac,
        source: Addr,
        body: &Body,
        options: &[Opt<B>],
    ) -> Packet<A>
        requires formed { IsWellFormed (whole_of body.now options.now) }
        requires room { HasRoomFor self (written_length (whole_of body.now options.now)) }
        ensures { result ≡ router_advertisement_frame mac source (whole_of body.now options.now) }
    {
        self.write_long(
            Mac::multicast(Addr::ALL_NODES),
            mac,
            source,
            Addr::ALL_NODES,
            body,
            options,
        )
    }
}
