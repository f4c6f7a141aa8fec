//! The Router Solicitation that a host sends (RFC 4861, section 6.3.7).

ghost use Rattle.std.specs.Prelude.{◌≡◌};
ghost use Rattle.nd_compose.specs.Frames.{router_solicitation_frame};

use crate::frame_room::{FrameRoom, are_bytes};
use nd_addr::{Addr, Mac};
use nd_message::{Body, Opt};
use nd_packet::Packet;
use std::alloc::{Allocator, Global};

impl<A: Allocator> FrameRoom<A> {
    /// Returns a Router Solicitation to all routers, from one of the node's own addresses (RFC 4861, section 6.3.7).
    #[tactic(auto, using(crate::proofs::Formed::router_solicitation_formed, crate::proofs::Formed::router_solicitation_short))]
    pub fn router_solicitation(self, mac: Mac, source: Addr) -> Packet<A>
        ensures { result ≡ router_solicitation_frame mac source }
    {
        are_bytes(&mac, &source);
        let options: [Opt<Global>; 1] = [Opt::Slla(mac)];
        self.write(
            Mac::multicast(Addr::ALL_ROUTERS),
            mac,
            source,
            Addr::ALL_ROUTERS,
            &Body::Rs,
            &options,
        )
    }
}
