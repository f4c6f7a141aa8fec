ghost use Rattle.std.specs.Prelude.{length};
ghost use Rattle.nd_addr.specs.Room.{HasRoom, Puts};
ghost use Rattle.nd_decode.specs.declared.body.Body.TheVariants as bodies;
ghost use Rattle.nd_message.specs.Spelling.{fields_of};

use nd_addr::put_bytes;
use nd_decode::ICMPV6_ROUTER_SOLICITATION;
use std::alloc::Allocator;

/// Appends the fields of a Router Solicitation (RFC 4861, section 4.1).
pub(crate) fn put_router_solicitation<A: Allocator>(out: &mut Vec<u8, A>)
    requires { HasRoom out.old (length (fields_of 0 bodies.Rs)) }
    ensures { Puts out.old out.new (fields_of 0 bodies.Rs) }
{
    put_bytes(out, &[ICMPV6_ROUTER_SOLICITATION, 0, 0, 0, 0, 0, 0, 0]);
}
