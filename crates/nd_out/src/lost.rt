ghost use Rattle.std.specs.Prelude.{◌≡◌, ◌+◌, ◌++◌, ◌≤◌, OnOk, length, string_bytes, slice_index, slice_range};
ghost use Rattle.nd_addr.specs.Text.{address_text};
ghost use Rattle.nd_addr.specs.Frame.{ethernet_header_length};
ghost use Rattle.nd_chronicle.specs.Told.{loss_text, way_text};
ghost use Rattle.nd_out.specs.Out.{loss_of};

use crate::out::Loss;
use nd_addr::{Addr, ETHERNET_HEADER_LENGTH, IPV6_DESTINATION_AT, IPV6_SOURCE_AT};
use std::alloc::{AllocError, Allocator};

/// Returns the word for the reason for which a packet was lost.
pub(crate) fn loss_word(why: Loss) -> &'static str
    ensures { result.now ≡ loss_text (loss_of why) }
{
    match why {
        Loss::Unreachable => "unreachable",
        Loss::Replaced => "replaced",
        Loss::Forgotten => "forgotten",
        Loss::NoRoute => "no-route",
        Loss::HopLimit => "hop-limit",
    }
}

/// Returns a byte, or 0 past the end.
fn byte_at(bytes: &[u8], i: usize) -> u8
    ensures { result ≡ slice_index bytes.now i }
{
    if i < bytes.len() { bytes[i] } else { 0 }
}

/// Returns the address at a place. Missing bytes are zeros.
fn address_at(bytes: &[u8], place: usize) -> Addr
    requires { place ≤ 65536 }
    ensures { address_text result.0 ≡ address_text (slice_range bytes.now place (place + 16)) }
{
    let mut address = [0; 16];
    for i in 0..16usize {
        address[i] = byte_at(bytes, place + i);
    }
    Addr(address)
}

/// Writes the address at a place of a packet.
fn write_address_at<A: Allocator>(
    text: &mut String<A>,
    packet: &[u8],
    place: usize,
) -> Result<(), AllocError>
    requires { place ≤ 65536 }
    ensures { OnOk result (string_bytes text.new ≡ string_bytes text.old ++ address_text (slice_range packet.now place (place + 16))) }
{
    address_at(packet, place).write_text(text)
}

/// Writes the source and the destination of the packet in a frame.
pub(crate) fn write_way<A: Allocator>(text: &mut String<A>, frame: &[u8]) -> Result<(), AllocError>
    requires { ethernet_header_length ≤ length frame.now }
    ensures { OnOk result (string_bytes text.new ≡ string_bytes text.old ++ way_text frame.now) }
{
    let packet = &frame[ETHERNET_HEADER_LENGTH..];
    write_address_at(text, packet, IPV6_SOURCE_AT)?;
    text.push_str(" ")?;
    write_address_at(text, packet, IPV6_DESTINATION_AT)
}
