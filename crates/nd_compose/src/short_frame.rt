//! The frame of a message with a target and one link-layer address. All its lengths are known, so it is one array.

ghost use Rattle.std.specs.Prelude.{◌≡◌, ◌∷◌, ◌++◌};
ghost use Rattle.byteorder.specs.Endian.{big_bytes};
ghost use Rattle.nd_addr.specs.Checksum.{sum_to_write, with_sum};
ghost use Rattle.nd_addr.specs.Frame.{written_frame};
ghost use Rattle.nd_message.specs.Frame.{message_header};

use crate::frame_room::LONGEST_MESSAGE;
use nd_addr::{Addr, HEADERS_LENGTH, Ip6, Mac, NEXT_HEADER_ICMPV6, SUM_AT, headers, sum_for};
use nd_decode::{HOP_LIMIT, LINK_LAYER_ADDRESS_UNITS, NeighborAdvertisement};

/// The place of the target, and that of the option, which are the same in a Neighbor Solicitation (RFC 4861, sections 4.3 and 4.4).
const TARGET_AT: usize = NeighborAdvertisement::TARGET_AT;

const OPTION_AT: usize = NeighborAdvertisement::LENGTH;

/// The end of the checksum in a message, in bytes (RFC 4443, section 2.1).
const SUM_END: usize = SUM_AT + 2;

/// The length of the frame, in bytes.
const FRAME_LENGTH: usize = HEADERS_LENGTH + LONGEST_MESSAGE;

/// Returns the bytes of a message: the fields before its target, the target, and the option of this type, a link-layer address (RFC 4861, section
/// 4.6.1).
pub(crate) fn short_message(
    fields: [u8; TARGET_AT],
    target: Addr,
    kind: u8,
    mac: Mac,
) -> [u8; LONGEST_MESSAGE]
    ensures { result ≡ fields ++ target.0 ++ (kind ∷ 1 ∷ mac.0) }
{
    let [a, b, c, d, e, f] = mac.0;
    let option = [kind, LINK_LAYER_ADDRESS_UNITS, a, b, c, d, e, f];
    let mut bytes = [0; LONGEST_MESSAGE];
    bytes[..TARGET_AT].copy_from_slice(&fields);
    bytes[TARGET_AT..OPTION_AT].copy_from_slice(&target.0);
    bytes[OPTION_AT..].copy_from_slice(&option);
    bytes
}

/// Returns the message with its checksum (RFC 4443, section 2.3). So far its checksum is 0.
#[inline(always)]
fn summed(source: Addr, destination: Addr, message: [u8; LONGEST_MESSAGE]) -> [u8; LONGEST_MESSAGE]
    ensures { result ≡ with_sum (big_bytes 2 (sum_to_write source.0 destination.0 message)) message }
{
    let sum = sum_for(source, destination, &message);
    let mut bytes = message;
    bytes[SUM_AT..SUM_END].copy_from_slice(&sum.to_be_bytes());
    bytes
}

/// Returns the frame of a message whose checksum is still 0, from one Ethernet address to another, and from a source to a destination.
#[inline(always)]
pub(crate) fn short_frame(
    to: Mac,
    from: Mac,
    source: Addr,
    destination: Addr,
    message: [u8; LONGEST_MESSAGE],
) -> [u8; FRAME_LENGTH]
    ensures { result ≡ written_frame to from (message_header source destination) (with_sum (big_bytes 2 (sum_to_write source.0 destination.0 message)) message) }
{
    let header = Ip6 {
        traffic_class: 0,
        flow_label: 0,
        next_header: NEXT_HEADER_ICMPV6,
        hop_limit: HOP_LIMIT,
        source,
        destination,
    };
    let mut frame = [0; FRAME_LENGTH];
    frame[..HEADERS_LENGTH].copy_from_slice(&headers(to, from, &header, LONGEST_MESSAGE as u16));
    frame[HEADERS_LENGTH..].copy_from_slice(&summed(source, destination, message));
    frame
}
