ghost use Rattle.std.specs.Prelude.{length};
ghost use Rattle.nd_addr.specs.Room.{HasRoom, Puts};
ghost use Rattle.nd_decode.specs.declared.body.Body.TheVariants as bodies;
ghost use Rattle.nd_message.specs.Spelling.{fields_of};

use nd_addr::put_bytes;
use nd_decode::{ICMPV6_REDIRECT, Redirect};
use std::alloc::Allocator;

/// Appends the fields of a Redirect (RFC 4861, section 4.5).
pub(crate) fn put_redirect<A: Allocator>(redirect: &Redirect, out: &mut Vec<u8, A>)
    requires { HasRoom out.old (length (fields_of 0 (bodies.Redirect redirect.now))) }
    ensures { Puts out.old out.new (fields_of 0 (bodies.Redirect redirect.now)) }
{
    put_bytes(out, &[ICMPV6_REDIRECT, 0, 0, 0, 0, 0, 0, 0]);
    put_bytes(out, &redirect.target.0);
    put_bytes(out, &redirect.destination.0);
}
