ghost use Rattle.std.specs.Prelude.{length};
ghost use Rattle.nd_addr.specs.Room.{HasRoom, Puts};
ghost use Rattle.nd_decode.specs.declared.body.Body.TheVariants as bodies;
ghost use Rattle.nd_message.specs.Spelling.{fields_of};

use nd_addr::put_bytes;
use nd_decode::{ICMPV6_NEIGHBOR_SOLICITATION, NeighborSolicitation};
use std::alloc::Allocator;

/// Appends the fields of a Neighbor Solicitation (RFC 4861, section 4.3).
pub(crate) fn put_neighbor_solicitation<A: Allocator>(
    ns: &NeighborSolicitation,
    out: &mut Vec<u8, A>,
)
    requires { HasRoom out.old (length (fields_of 0 (bodies.Ns ns.now))) }
    ensures { Puts out.old out.new (fields_of 0 (bodies.Ns ns.now)) }
{
    put_bytes(out, &[ICMPV6_NEIGHBOR_SOLICITATION, 0, 0, 0, 0, 0, 0, 0]);
    put_bytes(out, &ns.target.0);
}
