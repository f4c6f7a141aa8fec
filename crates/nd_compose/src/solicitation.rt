//! The Neighbor Solicitations that a node sends (RFC 4861, sections 4.3, 7.2.2 and 7.3.3; RFC 4862, section 5.4.2).

ghost use Rattle.std.specs.Prelude.{◌≡◌};
ghost use Rattle.nd_message.specs.Frame.{message_frame};
ghost use Rattle.nd_compose.specs.Frames.{detection_frame, resolution_frame, probe_frame, solicitation};

use crate::frame_room::{FrameRoom, are_bytes};
use crate::short_frame::{short_frame, short_message};
use nd_addr::{Addr, Mac};
use nd_decode::{ICMPV6_NEIGHBOR_SOLICITATION, OPTION_SOURCE_LINK_LAYER_ADDRESS};
use nd_message::{Body, NeighborSolicitation, Opt};
use nd_packet::Packet;
use std::alloc::{Allocator, Global};

impl<A: Allocator> FrameRoom<A> {
    /// Returns a solicitation of duplicate address detection for an address: from `::`, without options (RFC 4862, section 5.4.2).
    #[tactic(auto, using(crate::proofs::Formed::bare_formed, crate::proofs::Formed::bare_short))]
    pub fn detection(self, mac: Mac, address: Addr) -> Packet<A>
        ensures { result ≡ detection_frame mac address }
    {
        are_bytes(&mac, &address);
        let destination = address.solicited_node();
        let body = Body::Ns(NeighborSolicitation { target: address });
        let options: [Opt<Global>; 0] = [];
        self.write(
            Mac::multicast(destination),
            mac,
            Addr::UNSPECIFIED,
            destination,
            &body,
            &options,
        )
    }

    /// Returns a multicast solicitation of a neighbour, from one of the node's own addresses (RFC 4861, section 7.2.2).
    pub fn resolution(self, mac: Mac, source: Addr, target: Addr) -> Packet<A>
        ensures { result ≡ resolution_frame mac source target }
    {
        let destination = target.solicited_node();
        self.solicit(
            Mac::multicast(destination),
            mac,
            source,
            destination,
            target,
        )
    }

    /// Returns a unicast solicitation of a neighbour whose Ethernet address is known, from one of the node's own addresses (RFC 4861, section
    /// 7.3.3).
    pub fn probe(self, mac: Mac, source: Addr, to: Mac, target: Addr) -> Packet<A>
        ensures { result ≡ probe_frame mac source to target }
    {
        self.solicit(to, mac, source, target, target)
    }

    /// Returns a Neighbor Solicitation with the link-layer address of its sender (RFC 4861, section 4.3).
    fn solicit(self, to: Mac, mac: Mac, source: Addr, destination: Addr, target: Addr) -> Packet<A>
        ensures { result ≡ message_frame to mac source destination (solicitation mac target) }
    {
        let fields = [ICMPV6_NEIGHBOR_SOLICITATION, 0, 0, 0, 0, 0, 0, 0];
        let message = short_message(fields, target, OPTION_SOURCE_LINK_LAYER_ADDRESS, mac);
        self.put(&short_frame(to, mac, source, destination, message))
    }
}
