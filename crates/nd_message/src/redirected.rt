ghost use Rattle.std.specs.Prelude.{length};
ghost use Rattle.std.specs.Option.{SomeIff};
ghost use Rattle.nd_addr.specs.Room.{HasRoom, Puts};
ghost use Rattle.nd_decode.specs.Option.{redirected};
ghost use Rattle.nd_message.specs.Spelling.{piece_of};
ghost use Rattle.nd_message.specs.Fitting.{FitsRedirected};

use nd_addr::put_bytes;
use nd_decode::{LONGEST_OPTION, OPTION_DATA_AT, OPTION_REDIRECTED_HEADER};
use std::alloc::Allocator;

/// The most bytes of a packet in a Redirected Header (RFC 4861, section 4.6).
const LONGEST_REDIRECTED: usize = LONGEST_OPTION - OPTION_DATA_AT;

/// Returns the number of bytes of a Redirected Header, if it can have this packet.
pub(crate) fn redirected_length(packet: &[u8]) -> Option<usize>
    ensures { SomeIff result (FitsRedirected packet.now) (length (piece_of (redirected packet.now))) }
{
    if packet.len() > LONGEST_REDIRECTED || packet.len() % 8 != 0 {
        return None;
    }
    Some(packet.len() + 8)
}

/// Appends the piece of a Redirected Header (RFC 4861, section 4.6.3).
pub(crate) fn put_redirected<A: Allocator>(packet: &[u8], out: &mut Vec<u8, A>)
    requires fits { FitsRedirected packet.now }
    requires room { HasRoom out.old (length (piece_of (redirected packet.now))) }
    ensures { Puts out.old out.new (piece_of (redirected packet.now)) }
{
    let units = ((packet.len() + 8) / 8) as u8;
    put_bytes(out, &[OPTION_REDIRECTED_HEADER, units, 0, 0, 0, 0, 0, 0]);
    put_bytes(out, packet);
}
