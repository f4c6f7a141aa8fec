ghost use Rattle.std.specs.Prelude.{length};
ghost use Rattle.nd_addr.specs.Room.{HasRoom, Puts};
ghost use Rattle.nd_decode.specs.declared.body.Body.TheVariants as bodies;
ghost use Rattle.nd_message.specs.Spelling.{fields_of};

use crate::flags::flag;
use nd_addr::put_bytes;
use nd_decode::{ICMPV6_NEIGHBOR_ADVERTISEMENT, NeighborAdvertisement};
use std::alloc::Allocator;

/// Appends the fields of a Neighbor Advertisement (RFC 4861, section 4.4).
pub(crate) fn put_neighbor_advertisement<A: Allocator>(
    na: &NeighborAdvertisement,
    out: &mut Vec<u8, A>,
)
    requires { HasRoom out.old (length (fields_of 0 (bodies.Na na.now))) }
    ensures { Puts out.old out.new (fields_of 0 (bodies.Na na.now)) }
{
    let router = flag(na.router, NeighborAdvertisement::FLAG_ROUTER);
    let solicited = flag(na.solicited, NeighborAdvertisement::FLAG_SOLICITED);
    let flags = router | solicited | flag(na.override_flag, NeighborAdvertisement::FLAG_OVERRIDE);
    put_bytes(
        out,
        &[ICMPV6_NEIGHBOR_ADVERTISEMENT, 0, 0, 0, flags, 0, 0, 0],
    );
    put_bytes(out, &na.target.0);
}
