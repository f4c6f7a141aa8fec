ghost use Rattle.std.specs.Prelude.{◌≡◌, ◌≤◌, IfOk, length};
ghost use Rattle.nd_addr.specs.Given.{Gives};
ghost use Rattle.nd_addr.specs.Frame.{frame_of, headers_length, written_headers, written_frame};
ghost use Rattle.nd_addr.specs.FrameKept.{frame_parts};
ghost use Rattle.nd_addr.specs.Room.{HasRoom, Puts};

use crate::ip6::{IPV6_HEADER_LENGTH, Ip6, header_bytes};
use crate::mac::Mac;
use crate::room::put_bytes;
use crate::why::Why;
use byteorder::{BigEndian, ByteOrder};
use std::alloc::{AllocError, Allocator};

/// The Ethernet type of IPv6 (RFC 2464, section 3).
pub const ETHERNET_IPV6: u16 = 0x86dd;

/// The length of an Ethernet header, in bytes, which is where the packet begins (RFC 2464, section 3).
pub const ETHERNET_HEADER_LENGTH: usize = 14;

/// The MTU of Ethernet, in bytes (RFC 2464, section 2).
pub const ETHERNET_MTU: u32 = 1500;

/// The number of bytes before the payload of a packet: the Ethernet fields, and the header.
pub const HEADERS_LENGTH: usize = ETHERNET_HEADER_LENGTH + IPV6_HEADER_LENGTH;

/// The places of the destination, the source and the type in it.
const DESTINATION_AT: usize = 0;

const SOURCE_AT: usize = 6;

const TYPE_AT: usize = 12;

/// The layout of an Ethernet frame that holds an IPv6 packet (RFC 2464, section 3): destination 6 bytes,
/// source 6, type 2, and then the packet.
pub enum Frame {}

/// An Ethernet frame, with the bytes after its type left in place (RFC 2464, section 3).
#[derive(Clone, Copy, Debug)]
pub struct FrameRef<'a> {
    /// The receiver.
    pub destination: Mac,
    /// The sender.
    pub source: Mac,
    /// The packet, and any padding after it.
    pub rest: &'a [u8],
}

impl Frame {
    /// Reads a frame. Returns `FrameShort` for fewer than 14 bytes, and otherwise `NotIpv6` for an Ethernet type other than 0x86dd (RFC 2464,
    /// section 3).
    pub fn read(bytes: &[u8]) -> Result<FrameRef<'_>, Why>
        ensures { Gives frame_parts result (frame_of bytes.now) }
    {
        if bytes.len() < ETHERNET_HEADER_LENGTH {
            return Err(Why::FrameShort);
        }
        if BigEndian::read_u16(&bytes[TYPE_AT..]) != ETHERNET_IPV6 {
            return Err(Why::NotIpv6);
        }
        Ok(FrameRef {
            destination: Mac::at(bytes, DESTINATION_AT),
            source: Mac::at(bytes, SOURCE_AT),
            rest: &bytes[ETHERNET_HEADER_LENGTH..],
        })
    }
}

/// Returns what precedes a payload of this length: the three Ethernet fields, and the header.
#[inline(always)]
pub fn headers(destination: Mac, source: Mac, header: &Ip6, length: u16) -> [u8; HEADERS_LENGTH]
    ensures { result ≡ written_headers destination source header.now length }
{
    let mut bytes = [0; HEADERS_LENGTH];
    bytes[..SOURCE_AT].copy_from_slice(&destination.0);
    bytes[SOURCE_AT..TYPE_AT].copy_from_slice(&source.0);
    bytes[TYPE_AT..ETHERNET_HEADER_LENGTH].copy_from_slice(&ETHERNET_IPV6.to_be_bytes());
    bytes[ETHERNET_HEADER_LENGTH..].copy_from_slice(&header_bytes(header, length));
    bytes
}

/// Appends what precedes a payload of this length: the three Ethernet fields, and the header. There is room for `HEADERS_LENGTH` bytes more. It
/// takes no memory.
pub fn put_headers<A: Allocator>(
    out: &mut Vec<u8, A>,
    destination: Mac,
    source: Mac,
    header: &Ip6,
    length: u16,
)
    requires { HasRoom out.old headers_length }
    ensures { Puts out.old out.new (written_headers destination source header.now length) }
{
    put_bytes(out, &headers(destination, source, header, length));
}

/// Returns the frame of a packet: the three Ethernet fields, the header with the payload's length, the payload. Returns an error if out of memory.
pub fn write_frame<A: Allocator>(
    alloc: A,
    destination: Mac,
    source: Mac,
    header: &Ip6,
    payload: &[u8],
) -> Result<Vec<u8, A>, AllocError>
    requires { length payload.now ≤ 65535 }
    ensures { IfOk result (λ frame. frame.items ≡ written_frame destination source header.now payload.now) }
{
    let mut frame = Vec::with_capacity(alloc, HEADERS_LENGTH + payload.len())?;
    put_headers(
        &mut frame,
        destination,
        source,
        header,
        payload.len() as u16,
    );
    put_bytes(&mut frame, payload);
    Ok(frame)
}
