ghost use Rattle.std.specs.Prelude.{◌≡◌};
ghost use Rattle.nd_addr.specs.Given.{Gives};
ghost use Rattle.nd_addr.specs.Ip6.{packet_of, packet_parts, written_header};

use crate::addr::Addr;
use crate::why::Why;
use byteorder::{BigEndian, ByteOrder};

/// The next header of ICMPv6 (RFC 4443, section 1), which is also the last byte of its pseudo-header (RFC 8200, section 8.1).
pub const NEXT_HEADER_ICMPV6: u8 = 58;

/// The least MTU of a link, in bytes (RFC 8200, section 5).
pub const LEAST_MTU: u32 = 1280;

/// The length of an IPv6 header, in bytes, which is where the payload begins (RFC 8200, section 3).
pub const IPV6_HEADER_LENGTH: usize = 40;

/// The version of IPv6, in the first four bits (RFC 8200, section 3).
const VERSION: u32 = 6;

/// The place of Payload Length in the header, in 2 bytes. Version, traffic class and flow label precede it.
pub const IPV6_PAYLOAD_LENGTH_AT: usize = 4;

/// The places of the next two fields.
const NEXT_HEADER_AT: usize = 6;

const HOP_LIMIT_AT: usize = 7;

/// The place of the source in the header.
pub const IPV6_SOURCE_AT: usize = 8;

/// The place of the destination in the header.
pub const IPV6_DESTINATION_AT: usize = 24;

/// An IPv6 header (RFC 8200, section 3) without its version, which is 6, and its payload's length.
#[derive(Clone, Copy, Debug, PartialEq, Eq)]
pub struct Ip6 {
    /// Traffic Class (RFC 8200, section 7).
    pub traffic_class: u8,
    /// Flow Label, 20 bits (RFC 8200, section 6). The low 20 bits of a larger number are written.
    pub flow_label: u32,
    /// The type of the header that follows: `NEXT_HEADER_ICMPV6`, or another number of IANA's protocol numbers.
    pub next_header: u8,
    /// The number of nodes that may still send the packet on.
    pub hop_limit: u8,
    /// The address of the sender.
    pub source: Addr,
    /// The address of the receiver.
    pub destination: Addr,
}

/// An IPv6 packet, with its payload left in place.
#[derive(Clone, Copy, Debug)]
pub struct Ip6Ref<'a> {
    /// The fields of its header.
    pub header: Ip6,
    /// As many bytes as the payload length says: padding after them is left out.
    pub payload: &'a [u8],
}

impl Ip6 {
    /// Reads a packet (RFC 8200, section 3). Returns `HeaderShort` for fewer than 40 bytes, otherwise `Version` for a version other than 6, and
    /// otherwise `PayloadShort` for fewer bytes after the header than its payload length says.
    pub fn read(bytes: &[u8]) -> Result<Ip6Ref<'_>, Why>
        ensures { Gives packet_parts result (packet_of bytes.now) }
    {
        if bytes.len() < IPV6_HEADER_LENGTH {
            return Err(Why::HeaderShort);
        }
        let first = BigEndian::read_u32(bytes);
        if first / (1 << 28) != VERSION {
            return Err(Why::Version);
        }
        let length = BigEndian::read_u16(&bytes[IPV6_PAYLOAD_LENGTH_AT..]) as usize;
        if bytes.len() < IPV6_HEADER_LENGTH + length {
            return Err(Why::PayloadShort);
        }
        let header = Ip6 {
            traffic_class: (first / (1 << 20) % 256) as u8,
            flow_label: first % (1 << 20),
            next_header: bytes[NEXT_HEADER_AT],
            hop_limit: bytes[HOP_LIMIT_AT],
            source: Addr::at(bytes, IPV6_SOURCE_AT),
            destination: Addr::at(bytes, IPV6_DESTINATION_AT),
        };
        Ok(Ip6Ref {
            header,
            payload: &bytes[IPV6_HEADER_LENGTH..IPV6_HEADER_LENGTH + length],
        })
    }
}

/// Returns the bytes of the header of a packet with a payload of this length.
#[inline(always)]
pub(crate) fn header_bytes(header: &Ip6, length: u16) -> [u8; IPV6_HEADER_LENGTH]
    ensures { result ≡ written_header header.now length }
{
    let class = header.traffic_class as u32;
    let first = VERSION * (1 << 28) + class * (1 << 20) + header.flow_label % (1 << 20);
    let [a, b, c, d] = first.to_be_bytes();
    let [e, f] = length.to_be_bytes();
    let mut bytes = [0; IPV6_HEADER_LENGTH];
    bytes[..IPV6_SOURCE_AT].copy_from_slice(&[
        a,
        b,
        c,
        d,
        e,
        f,
        header.next_header,
        header.hop_limit,
    ]);
    bytes[IPV6_SOURCE_AT..IPV6_DESTINATION_AT].copy_from_slice(&header.source.0);
    bytes[IPV6_DESTINATION_AT..].copy_from_slice(&header.destination.0);
    bytes
}
