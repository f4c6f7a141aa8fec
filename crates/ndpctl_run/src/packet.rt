//! The words of a script that spell packets of the upper layer, and whole packets.

ghost use Rattle.std.specs.Prelude.{◌≡◌, List, ℕ, None, Ok, IfSome, IfOk};
ghost use Rattle.std.specs.Option.{IsSomeAnd};
ghost use Rattle.nd_addr.specs.Ip6.{PacketParts};
ghost use Rattle.nd_steps.specs.Packets.{whole_parts};
ghost use Rattle.ndpctl_run.specs.Packet.{IsHeader, IsNextHeaderWord, IsPacket, IsPacketWord};
ghost use Rattle.ndpctl_run.specs.Words.{Parts};

use crate::address::split_address;
use crate::bytes::read_bytes;
use crate::number::read_byte;
use crate::words::split_word;
use nd_addr::{Addr, IPV6_HEADER_LENGTH};
use nd_node::{OutgoingPacket, WholePacket, read_whole};
use nd_text::decode_hex_to_slice;
use std::alloc::{AllocError, Allocator};

/// What a script says of a packet's header.
#[derive(Clone, Copy)]
struct Header {
    source: Addr,
    destination: Addr,
    next_header: u8,
}

/// Returns the next header that the first word of a text spells, and what follows its space.
fn split_next_header(text: &[u8]) -> Option<(u8, &[u8])>
    ensures found { IfSome result (λ parts. Parts text.now (λ word. IsNextHeaderWord word parts.0) (λ rest. rest ≡ parts.1.now)) }
    ensures only { (next_header : ℕ) (rest : List ℕ) → Parts text.now (λ word. IsNextHeaderWord word next_header) (λ r. r ≡ rest)
        → IsSomeAnd result (λ parts. (parts.0 ≡ next_header) × (parts.1.now ≡ rest)) }
{
    let (word, rest) = split_word(text)?;
    let next_header = read_byte(word)?;
    Some((next_header, rest))
}

/// Returns the header that the first words of a text spell, and what follows their space.
fn split_header(text: &[u8]) -> Option<(Header, &[u8])>
    ensures found { IfSome result (λ parts. IsHeader text.now parts.0.source parts.0.destination parts.0.next_header (λ rest. rest ≡ parts.1.now)) }
    ensures only { (source destination : Addr) (next_header : ℕ) (rest : List ℕ) → IsHeader text.now source destination next_header (λ r. r ≡ rest)
        → IsSomeAnd result (λ parts. (parts.0.source ≡ source) × (parts.0.destination ≡ destination) × (parts.0.next_header ≡ next_header) × (parts.1.now ≡ rest)) }
{
    let (source, rest) = split_address(text)?;
    let (destination, rest) = split_address(rest)?;
    let (next_header, rest) = split_next_header(rest)?;
    let header = Header {
        source,
        destination,
        next_header,
    };
    Some((header, rest))
}

/// Returns the packet that some words spell: its source, its destination, its next header in decimal digits, and its payload as `read_bytes` reads
/// it. No other words spell one, and such words take no memory. Returns an error if out of memory.
pub(crate) fn read_packet<A: Allocator + Clone>(
    alloc: &A,
    words: &[u8],
) -> Result<Option<OutgoingPacket<A>>, AllocError>
    ensures found { IfOk result (λ read. IfSome read (λ packet. IsPacket words.now packet.source packet.destination packet.next_header packet.payload.items)) }
    ensures only { (source destination : Addr) (next_header : ℕ) (payload : List ℕ) → IsPacket words.now source destination next_header payload
        → IfOk result (λ read. IsSomeAnd read (λ packet. (packet.source ≡ source) × (packet.destination ≡ destination) × (packet.next_header ≡ next_header) × (packet.payload.items ≡ payload))) }
    ensures malformed { ((source destination : Addr) (next_header : ℕ) (payload : List ℕ) → IsPacket words.now source destination next_header payload → ⊥) → result ≡ Ok None }
{
    let Some((header, word)) = split_header(words) else {
        return Ok(None);
    };
    match read_bytes(alloc, word)? {
        Some(payload) => Ok(Some(OutgoingPacket {
            source: header.source,
            destination: header.destination,
            next_header: header.next_header,
            payload,
        })),
        None => Ok(None),
    }
}

/// The length of the longest packet, in bytes: a header, and as many bytes as its payload length can say (RFC 8200, section 3).
const LONGEST_PACKET: usize = IPV6_HEADER_LENGTH + 65_535;

/// Returns the whole packet whose bytes a word spells, two hexadecimal digits a byte, in either case. No other word spells one, and such a word takes no
/// memory. Returns an error if out of memory.
pub(crate) fn read_whole_packet<A: Allocator + Clone>(
    alloc: &A,
    word: &[u8],
) -> Result<Option<WholePacket<A>>, AllocError>
    ensures found { IfOk result (λ read. IfSome read (λ packet. IsPacketWord word.now (whole_parts packet))) }
    ensures only { (packet : PacketParts) → IsPacketWord word.now packet → IfOk result (λ read. IsSomeAnd read (λ found. whole_parts found ≡ packet)) }
    ensures malformed { ((packet : PacketParts) → IsPacketWord word.now packet → ⊥) → result ≡ Ok None }
{
    let mut room = [0; LONGEST_PACKET];
    let length = word.len() / 2;
    if length > LONGEST_PACKET {
        return Ok(None);
    }
    let bytes = &mut room[..length];
    if decode_hex_to_slice(word, bytes).is_err() {
        return Ok(None);
    }
    let Some(packet) = read_whole(bytes) else {
        return Ok(None);
    };
    let mut payload = Vec::with_capacity(alloc.clone()?, packet.payload.len())?;
    payload.extend_from_slice(packet.payload)?;
    Ok(Some(WholePacket {
        header: packet.header,
        payload,
    }))
}
