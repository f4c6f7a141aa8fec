ghost use Rattle.std.specs.Prelude.{◌≡◌, MatchOption, true, false};
ghost use Rattle.nd_decode.specs.MessageType.{IsOfType};
ghost use Rattle.nd_validity.specs.Hearing.{Outcome, outcome, Hears, HearsInSomeRole, is_message, outcome_of_packet, hearing_in_some_role, taken_by, hearing_of};

use crate::validity::{fault, is_not_for};
use nd_addr::{Addr, Frame, Ip6, Ip6Ref, NEXT_HEADER_ICMPV6, Role, Why, sum_is_good};
use nd_decode::{HOP_LIMIT, MessageRef, MessageType, decode_as};

/// A valid message, with the addresses of its packet.
#[derive(Clone, Copy, Debug)]
pub struct Heard<'a> {
    /// The source of its packet.
    pub source: Addr,
    /// The destination of its packet.
    pub destination: Addr,
    /// What it says.
    pub message: MessageRef<'a>,
}

/// What is heard in a frame, with its bytes left in place.
#[derive(Clone, Copy, Debug)]
pub enum Hearing<'a> {
    /// A valid message of Neighbor Discovery.
    Valid(Heard<'a>),
    /// A packet that is no such message: another next header than ICMPv6's, no payload, or another type than 133 to 137.
    Other(Ip6Ref<'a>),
    /// The first reason to drop the frame.
    Drop(Why),
}

/// Returns what a frame is to a host or to a router (RFC 4861, sections 6.1, 7.1 and 8.1).
///
/// The reasons are looked for in this order: `FrameShort`, `NotIpv6`, `HeaderShort`, `Version`, `PayloadShort`; then, for messages alone,
/// `HopLimit`, `Sum`, `Code`, `Length`, `OptionZero`, `OptionOver`, `Source`, `Target`, `UnspecifiedSlla`, `NotSolicitedNode`,
/// `SolicitedMulticast`, `RedirectTarget`, `RedirectDestination`, `NotForUs`. The order is our choice, in which no option is looked at before the
/// checksum is good; `Why` says when each holds. What depends on a node's addresses or tables isn't looked at, nor are the Ethernet addresses.
pub fn hear(frame: &[u8], role: Role) -> Hearing<'_>
    // What is returned is heard so, and nothing else is.
    ensures heard { Hears frame.now role (outcome result) }
    ensures only { (o : Outcome) → Hears frame.now role o → outcome result ≡ o }
    // The same as one function.
    ensures exactly { outcome result ≡ hearing_of frame.now role }
{
    taken_by(role, hear_exactly(frame))
}

/// Returns what a frame is to a node of the role that takes its message: a Router Solicitation to a router, a Router Advertisement or a Redirect to
/// a host, and all else to both. The reasons are those of `hear` in their order, except for `NotForUs`, which is never returned.
pub fn hear_in_some_role(frame: &[u8]) -> Hearing<'_>
    // What is returned is heard by some role that takes the message, and nothing else is heard so.
    ensures heard { HearsInSomeRole frame.now (outcome result) }
    ensures only { (o : Outcome) → HearsInSomeRole frame.now o → outcome result ≡ o }
    // The same as one function.
    ensures exactly { outcome result ≡ hearing_in_some_role frame.now }
{
    hear_exactly(frame)
}

/// Returns what a frame is to a role that takes its message, by the function that decides it.
#[tactic(auto, unfolding(crate::specs::Hearing::hearing_in_some_role))]
fn hear_exactly(frame: &[u8]) -> Hearing<'_>
    ensures { outcome result ≡ hearing_in_some_role frame.now }
{
    let frame = match Frame::read(frame) {
        Ok(frame) => frame,
        Err(why) => return Hearing::Drop(why),
    };
    match Ip6::read(frame.rest) {
        Ok(packet) => hear_packet(packet),
        Err(why) => Hearing::Drop(why),
    }
}

/// Returns what a node of a role hears: it drops a message that it does not take.
fn taken_by(role: Role, heard: Hearing<'_>) -> Hearing<'_>
    ensures { outcome result ≡ taken_by role (outcome heard.entry) }
{
    match heard {
        Hearing::Valid(valid) if is_not_for(role, &valid.message.body) => {
            Hearing::Drop(Why::NotForUs)
        }
        _ => heard,
    }
}

/// Returns what a packet is.
fn hear_packet(packet: Ip6Ref<'_>) -> Hearing<'_>
    ensures { outcome result ≡ outcome_of_packet (record { header = packet.entry.header; payload = packet.entry.payload.now }) }
{
    let header = packet.header;
    let Some(kind) = message_type(&packet) else {
        return Hearing::Other(packet);
    };
    if header.hop_limit != HOP_LIMIT {
        return Hearing::Drop(Why::HopLimit);
    }
    if !sum_is_good(header.source, header.destination, packet.payload) {
        return Hearing::Drop(Why::Sum);
    }
    let message = match decode_as(kind, packet.payload) {
        Ok(message) => message,
        Err(why) => return Hearing::Drop(why),
    };
    let heard = Heard {
        source: header.source,
        destination: header.destination,
        message,
    };
    match fault(&heard) {
        Some(why) => Hearing::Drop(why),
        None => Hearing::Valid(heard),
    }
}

/// Returns the type of the message of Neighbor Discovery that a packet is, by its next header and its first byte, if it is one.
fn message_type(packet: &Ip6Ref<'_>) -> Option<MessageType>
    ensures { MatchOption result (is_message packet.now.header packet.now.payload.now ≡ false)
        (λ kind. (is_message packet.now.header packet.now.payload.now ≡ true) × IsOfType kind packet.now.payload.now) }
{
    if packet.header.next_header != NEXT_HEADER_ICMPV6 || packet.payload.is_empty() {
        return None;
    }
    MessageType::of(packet.payload[0])
}
