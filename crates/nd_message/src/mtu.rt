ghost use Rattle.std.specs.Prelude.{◌≡◌, ◌^◌, ◌<◌, length};
ghost use Rattle.nd_addr.specs.Room.{HasRoom, Puts};
ghost use Rattle.nd_decode.specs.Option.{mtu};
ghost use Rattle.nd_message.specs.Spelling.{piece_of};

use nd_addr::put_bytes;
use nd_decode::{MTU_UNITS, OPTION_MTU};
use std::alloc::Allocator;

/// Returns the number of bytes of an MTU option, which is the same for each MTU.
pub(crate) fn mtu_length(number: u32) -> usize
    ensures len { result ≡ length (piece_of (mtu number)) }
    ensures fits { number < 2 ^ 32 }
{
    let _number = number;
    8
}

/// Appends the piece of an MTU (RFC 4861, section 4.6.4).
pub(crate) fn put_mtu<A: Allocator>(number: u32, out: &mut Vec<u8, A>)
    requires { HasRoom out.old (length (piece_of (mtu number))) }
    ensures { Puts out.old out.new (piece_of (mtu number)) }
{
    let [a, b, c, d] = number.to_be_bytes();
    put_bytes(out, &[OPTION_MTU, MTU_UNITS, 0, 0, a, b, c, d]);
}
