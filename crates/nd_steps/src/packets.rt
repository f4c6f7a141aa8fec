//! Packets of the upper layer, as they are sent and as they are received (RFC 4861, section 5.2; RFC 8200, section 3).

ghost use Rattle.std.specs.Prelude.{◌≡◌, ◌+◌, take, ◌<◌, ◌≤◌, nat_lt, length, IfOk, MatchOption, None};
ghost use Rattle.nd_addr.specs.Ip6.{PacketParts, ipv6_header_length, packet_parts};
ghost use Rattle.nd_addr.specs.Places.{packet_in};
ghost use Rattle.nd_addr.specs.Frame.{ethernet_mtu, written_frame};
ghost use Rattle.nd_steps.specs.Packets.{IsWholePacket, packet_with, whole_parts};

use nd_addr::{Addr, ETHERNET_HEADER_LENGTH, IPV6_HEADER_LENGTH, Ip6, Ip6Ref, Mac, write_frame};
use nd_packet::Packet;
use std::alloc::{AllocError, Allocator};

/// Returns the packet in a frame, from its IPv6 header to the end of a payload of this length, in bytes, without the padding after it (RFC 8200,
/// section 3).
pub fn packet_in(frame: &[u8], payload_length: usize) -> &[u8]
    ensures { result.now ≡ take (ipv6_header_length + payload_length) (packet_in frame.now) }
{
    let packet = &frame[ETHERNET_HEADER_LENGTH.min(frame.len())..];
    let length = IPV6_HEADER_LENGTH.saturating_add(payload_length);
    &packet[..length.min(packet.len())]
}

/// A packet that the upper layer passes to the node: what its IPv6 header says (RFC 8200, section 3), and its payload.
#[derive(Drop)]
pub struct OutgoingPacket<A: Allocator> {
    /// The source, one of the node's assigned addresses.
    pub source: Addr,
    /// The destination, for which the next hop is determined (RFC 4861, section 5.2).
    pub destination: Addr,
    /// The type of the header that follows: one of IANA's protocol numbers.
    pub next_header: u8,
    /// The bytes after the IPv6 header.
    pub payload: Vec<u8, A>,
}

impl<A: Allocator> OutgoingPacket<A> {
    /// Returns the packet, with its payload left in place.
    pub fn as_datagram(&self) -> Datagram<'_>
        ensures source { result.source ≡ self.now.source }
        ensures destination { result.destination ≡ self.now.destination }
        ensures next_header { result.next_header ≡ self.now.next_header }
        ensures payload { result.payload.now ≡ self.now.payload.items }
    {
        Datagram {
            source: self.source,
            destination: self.destination,
            next_header: self.next_header,
            payload: &self.payload,
        }
    }
}

/// A packet that the upper layer passes to the node, with its payload left in place.
#[derive(Clone, Copy)]
pub struct Datagram<'a> {
    /// The source, one of the node's assigned addresses.
    pub source: Addr,
    /// The destination, for which the next hop is determined (RFC 4861, section 5.2).
    pub destination: Addr,
    /// The type of the header that follows: one of IANA's protocol numbers.
    pub next_header: u8,
    /// The bytes after the IPv6 header.
    pub payload: &'a [u8],
}

impl<'a> Datagram<'a> {
    /// Returns the packet with the header that the node gives it: a hop limit, and no traffic class and no flow label (RFC 8200, section 3).
    pub fn with_header(&self, hop_limit: u8) -> Ip6Ref<'a>
        ensures { packet_parts result ≡ packet_with hop_limit self.now.source self.now.destination self.now.next_header self.now.payload.now }
    {
        let header = Ip6 {
            traffic_class: 0,
            flow_label: 0,
            next_header: self.next_header,
            hop_limit,
            source: self.source,
            destination: self.destination,
        };
        Ip6Ref {
            header,
            payload: self.payload,
        }
    }
}

/// A whole IPv6 packet, which a stack has built, or has received on another interface.
#[derive(Drop)]
pub struct WholePacket<A: Allocator> {
    /// Its header, which is sent as it is.
    pub header: Ip6,
    /// The bytes after the header.
    pub payload: Vec<u8, A>,
}

impl<A: Allocator> WholePacket<A> {
    /// Returns the packet, with its payload left in place.
    pub fn as_packet(&self) -> Ip6Ref<'_>
        ensures { packet_parts result ≡ whole_parts self.now }
    {
        Ip6Ref {
            header: self.header,
            payload: &self.payload,
        }
    }
}

/// Reads bytes that are one whole packet (RFC 8200, section 3). Returns `None` for a version other than 6, and for fewer or more bytes after the header
/// than its payload length says.
pub fn read_whole(bytes: &[u8]) -> Option<Ip6Ref<'_>>
    ensures { MatchOption result ((packet : PacketParts) → IsWholePacket bytes.now packet → ⊥) (λ packet. IsWholePacket bytes.now (packet_parts packet)) }
{
    match Ip6::read(bytes) {
        Ok(packet) => {
            let length = IPV6_HEADER_LENGTH.saturating_add(packet.payload.len());
            if bytes.len() == length {
                return Some(packet);
            }
            None
        }
        Err(_) => None,
    }
}

/// Returns the frame of a packet from one Ethernet address to another (RFC 2464, section 3). Returns an error if out of memory.
pub fn frame_to<A: Allocator>(
    alloc: A,
    to: Mac,
    from: Mac,
    packet: &Ip6Ref<'_>,
) -> Result<Packet<A>, AllocError>
    requires { length packet.now.payload.now ≤ 65535 }
    ensures { IfOk result (λ frame. frame ≡ written_frame to from packet.now.header packet.now.payload.now) }
{
    let _to = to.as_bytes();
    let _from = from.as_bytes();
    let frame = write_frame(alloc, to, from, &packet.header, packet.payload)?;
    match Packet::new(frame) {
        Some(packet) => Ok(packet),
        None => unreachable!(),
    }
}

/// Returns true if a packet with this payload is longer than the MTU of the link, in bytes (RFC 8200, section 5).
pub fn is_too_long(payload: &[u8], mtu: u32) -> bool
    requires { mtu ≤ ethernet_mtu }
    ensures { result ≡ nat_lt mtu (ipv6_header_length + length payload.now) }
{
    (mtu as usize) < IPV6_HEADER_LENGTH.saturating_add(payload.len())
}
