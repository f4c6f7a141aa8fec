//! A message of ICMPv6 that a stack has taken out of its packet, from C. The definitions are in `specs/Message.antt`.

ghost use Rattle.std.specs.Prelude.{◌≡◌, ◌≤◌, IfOk, length};
ghost use Rattle.byteorder.specs.Endian.{big_bytes};
ghost use Rattle.nd_addr.specs.Checksum.{with_sum};
ghost use Rattle.nd_addr.specs.Room.{HasRoom, Puts};
ghost use Rattle.nd_c_types.specs.Message.{bytes_in, frame_of, has_known_type, header_of, is_message};

use nd_addr::{
    Addr, HEADERS_LENGTH, Ip6, Mac, NEXT_HEADER_ICMPV6, SUM_AT, put_bytes, put_headers, sum_for,
};
use nd_decode::{ICMPV6_REDIRECT, ICMPV6_ROUTER_SOLICITATION};
use std::alloc::{AllocError, Global};

/// The most bytes that a packet may have behind its header (RFC 8200, section 3).
const LONGEST: usize = 65_535;

/// The place of what follows the checksum field of a message.
const SUM_END: usize = SUM_AT + 2;

/// An Ethernet address that isn't looked at.
const NO_MAC: Mac = Mac([0; 6]);

/// What the IPv6 header of a message said, and whether its checksum was seen to be good: `nd_message` of the header.
#[repr(C)]
#[derive(Clone, Copy, Drop)]
pub struct Message {
    pub source: [u8; 16],
    pub destination: [u8; 16],
    pub hop_limit: u8,
    /// 1 if the checksum was seen to be good, else 0.
    pub checksum_good: u8,
    pub reserved: u16,
}

impl Message {
    /// Returns true if the flag is 0 or 1, the reserved field is 0, a packet may have so many bytes, and they begin with the type of a message of
    /// Neighbor Discovery.
    pub fn is_message(&self, bytes: &[u8]) -> bool
        ensures { result ≡ is_message self.now bytes.now }
    {
        self.checksum_good <= 1
            && self.reserved == 0
            && bytes.len() <= LONGEST
            && has_known_type(bytes)
    }

    /// Returns the frame that has these fields and these bytes, with the right checksum where it was seen to be good. Returns an error if out of
    /// memory.
    pub fn frame(&self, alloc: Global, bytes: &[u8]) -> Result<Vec<u8, Global>, AllocError>
        requires { length bytes.now ≤ 65535 }
        ensures { IfOk result (λ frame. frame.items ≡ frame_of self.now bytes.now) }
    {
        let mut frame = Vec::with_capacity(alloc, HEADERS_LENGTH + bytes.len())?;
        put_headers(
            &mut frame,
            NO_MAC,
            NO_MAC,
            &self.header(),
            bytes.len() as u16,
        );
        self.put(&mut frame, bytes);
        Ok(frame)
    }

    /// Returns the IPv6 header.
    fn header(&self) -> Ip6
        ensures { result ≡ header_of self.now }
    {
        Ip6 {
            traffic_class: 0,
            flow_label: 0,
            next_header: NEXT_HEADER_ICMPV6,
            hop_limit: self.hop_limit,
            source: Addr(self.source),
            destination: Addr(self.destination),
        }
    }

    /// Appends the message.
    fn put(&self, out: &mut Vec<u8, Global>, bytes: &[u8])
        requires { HasRoom out.old (length bytes.now) }
        ensures { Puts out.old out.new (bytes_in self.now bytes.now) }
    {
        if self.checksum_good == 1 {
            let sum = sum_for(Addr(self.source), Addr(self.destination), bytes);
            put_with_sum(out, bytes, sum);
        } else {
            put_bytes(out, bytes);
        }
    }
}

/// Returns true if the first byte is the type of a message of Neighbor Discovery (RFC 4861, sections 4.1 to 4.5).
fn has_known_type(bytes: &[u8]) -> bool
    ensures { result ≡ has_known_type bytes.now }
{
    !bytes.is_empty() && bytes[0] >= ICMPV6_ROUTER_SOLICITATION && bytes[0] <= ICMPV6_REDIRECT
}

/// Appends a message with this checksum in its field, if it has one.
#[tactic(auto, unfolding(nd_addr::specs::Checksum::with_sum))]
fn put_with_sum(out: &mut Vec<u8, Global>, bytes: &[u8], sum: u16)
    requires { HasRoom out.old (length bytes.now) }
    ensures { Puts out.old out.new (with_sum (big_bytes 2 sum) bytes.now) }
{
    if bytes.len() < SUM_END {
        put_bytes(out, bytes);
        return;
    }
    put_bytes(out, &bytes[..SUM_AT]);
    put_bytes(out, &sum.to_be_bytes());
    put_bytes(out, &bytes[SUM_END..]);
}
