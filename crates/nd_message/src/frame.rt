ghost use Rattle.std.specs.Prelude.{◌+◌};
ghost use Rattle.nd_addr.specs.Frame.{headers_length};
ghost use Rattle.nd_addr.specs.Room.{HasRoom, Puts};
ghost use Rattle.nd_message.specs.Owned.{whole_of};
ghost use Rattle.nd_message.specs.Spelling.{written_length};
ghost use Rattle.nd_message.specs.Frame.{message_frame};
ghost use Rattle.nd_message.specs.WellFormed.{IsWellFormed};

use crate::encoding::put_message;
use crate::length::written_length;
use crate::opt::Opt;
use nd_addr::{Addr, Ip6, Mac, NEXT_HEADER_ICMPV6, put_headers};
use nd_decode::{Body, HOP_LIMIT};
use std::alloc::Allocator;

/// Appends the frame of a message of these fields and options: the Ethernet fields and the header of `nd_addr`, with a hop limit of 255, and the
/// message (RFC 4861, section 4). There is room for `HEADERS_LENGTH` bytes and as many more as `written_length` says. It takes no memory.
pub fn put_frame<A: Allocator, B: Allocator>(
    out: &mut Vec<u8, A>,
    to: Mac,
    from: Mac,
    source: Addr,
    destination: Addr,
    body: &Body,
    options: &[Opt<B>],
)
    requires formed { IsWellFormed (whole_of body.now options.now) }
    requires room { HasRoom out.old (headers_length + written_length (whole_of body.now options.now)) }
    ensures { Puts out.old out.new (message_frame to from source destination (whole_of body.now options.now)) }
{
    let length = match written_length(body, options) {
        Some(length) => length as u16,
        None => unreachable!(),
    };
    let header = Ip6 {
        traffic_class: 0,
        flow_label: 0,
        next_header: NEXT_HEADER_ICMPV6,
        hop_limit: HOP_LIMIT,
        source,
        destination,
    };
    put_headers(out, to, from, &header, length);
    put_message(out, body, options, source, destination);
}
