//! The Neighbor Advertisements that a node sends (RFC 4861, sections 4.4 and 7.2.4).

ghost use Rattle.std.specs.Prelude.{◌≡◌, true};
ghost use Rattle.nd_message.specs.Frame.{message_frame};
ghost use Rattle.nd_message.specs.Spelling.{three_flags_of};
ghost use Rattle.nd_compose.specs.Frames.{advertisement, defence_frame, answer_frame};

use crate::frame_room::FrameRoom;
use crate::open_mac::OPEN_MAC;
use crate::short_frame::{short_frame, short_message};
use nd_addr::{Addr, Mac};
use nd_decode::{
    ICMPV6_NEIGHBOR_ADVERTISEMENT, NeighborAdvertisement, OPTION_TARGET_LINK_LAYER_ADDRESS,
};
use nd_packet::Packet;
use std::alloc::Allocator;

impl<A: Allocator> FrameRoom<A> {
    /// Returns the answer to a solicitation from `::` for one of the node's own addresses: an advertisement to all nodes says that this node has
    /// the address (RFC 4861, section 7.2.4).
    pub fn defence(self, router: bool, mac: Mac, target: Addr) -> Packet<A>
        ensures { result ≡ defence_frame router mac target }
    {
        self.advertise(
            Mac::multicast(Addr::ALL_NODES),
            mac,
            Addr::ALL_NODES,
            router,
            false,
            target,
        )
    }

    /// Returns the answer to a solicitation from an address for one of the node's own (RFC 4861, section 7.2.4). Its Ethernet destination is still
    /// open: the packet is addressed when it is sent.
    pub fn answer(self, router: bool, mac: Mac, target: Addr, asker: Addr) -> Packet<A>
        ensures { result ≡ answer_frame router mac target asker }
    {
        self.advertise(OPEN_MAC, mac, asker, router, true, target)
    }

    /// Returns a Neighbor Advertisement from its target, with the target's link-layer address and the Override flag (RFC 4861, section 4.4).
    fn advertise(
        self,
        to: Mac,
        mac: Mac,
        destination: Addr,
        router: bool,
        solicited: bool,
        target: Addr,
    ) -> Packet<A>
        ensures { result ≡ message_frame to mac target destination (advertisement router solicited mac target) }
    {
        let flags = flags(router, solicited);
        let fields = [ICMPV6_NEIGHBOR_ADVERTISEMENT, 0, 0, 0, flags, 0, 0, 0];
        let message = short_message(fields, target, OPTION_TARGET_LINK_LAYER_ADDRESS, mac);
        self.put(&short_frame(to, mac, target, destination, message))
    }
}

/// Returns the flags of an advertisement that is to override what is known (RFC 4861, section 4.4).
fn flags(router: bool, solicited: bool) -> u8
    ensures { result ≡ three_flags_of router solicited true }
{
    let router = if router {
        NeighborAdvertisement::FLAG_ROUTER
    } else {
        0
    };
    let solicited = if solicited {
        NeighborAdvertisement::FLAG_SOLICITED
    } else {
        0
    };
    router | solicited | NeighborAdvertisement::FLAG_OVERRIDE
}
