//! The structure that a program in C reads. Its definition is in `specs/Heard.antt`.

ghost use Rattle.std.specs.Prelude.{◌≡◌, slice_index};
ghost use Rattle.nd_validity.specs.Hearing.{outcome};
ghost use Rattle.nd_addr.specs.Ip6.{payload_length_of};
ghost use Rattle.nd_addr.specs.Places.{packet_in};
ghost use Rattle.nd_decode.specs.Message.{least_length};
ghost use Rattle.nd_heard.specs.Heard.{heard_of, with_body, preference_number};

use crate::header::{
    HEARING_DROP, HEARING_OTHER, HEARING_VALID, PREFERENCE_HIGH, PREFERENCE_LOW, PREFERENCE_MEDIUM,
};
use nd_addr::{
    Addr, ETHERNET_HEADER_LENGTH, HEADERS_LENGTH, IPV6_PAYLOAD_LENGTH_AT, NEXT_HEADER_ICMPV6,
    Preference,
};
use nd_decode::Body;
use nd_validity::Hearing;

/// What a frame is, with the fields of its message: `nd_heard` of the header. A field is 0 if the frame or the message has none such.
#[repr(C)]
#[derive(Clone, Copy, Drop)]
pub struct Heard {
    pub source: [u8; 16],
    pub destination: [u8; 16],
    pub target: [u8; 16],
    pub redirected: [u8; 16],
    /// ND_HEARING_VALID, ND_HEARING_OTHER or ND_HEARING_DROP.
    pub hearing: u32,
    /// The number of the first reason to drop it.
    pub why: u32,
    /// The ICMPv6 type.
    pub message_type: u32,
    pub next_header: u32,
    /// The place in the frame at which the options begin.
    pub options: u32,
    /// Their number of bytes.
    pub options_bytes: u32,
    /// In milliseconds.
    pub reachable_time: u32,
    /// In milliseconds.
    pub retrans_timer: u32,
    /// In seconds.
    pub router_lifetime: u32,
    pub hop_limit: u8,
    pub managed: u8,
    pub other: u8,
    /// ND_PREFERENCE_MEDIUM, ND_PREFERENCE_HIGH or ND_PREFERENCE_LOW.
    pub preference: u8,
    pub router: u8,
    pub solicited: u8,
    pub override_flag: u8,
    pub reserved: u8,
}

/// The fields of a frame that has none.
const NOTHING: Heard = Heard {
    source: [0; 16],
    destination: [0; 16],
    target: [0; 16],
    redirected: [0; 16],
    hearing: 0,
    why: 0,
    message_type: 0,
    next_header: 0,
    options: 0,
    options_bytes: 0,
    reachable_time: 0,
    retrans_timer: 0,
    router_lifetime: 0,
    hop_limit: 0,
    managed: 0,
    other: 0,
    preference: 0,
    router: 0,
    solicited: 0,
    override_flag: 0,
    reserved: 0,
};

impl Heard {
    /// Returns the structure for what is heard in a frame.
    pub(crate) fn of(frame: &[u8], hearing: Hearing<'_>) -> Heard
        ensures { result ≡ heard_of frame.now (outcome hearing.entry) }
    {
        match hearing {
            Hearing::Valid(heard) => {
                let message = Heard::of_body(&heard.message.body);
                let fields = fields_length(&heard.message.body);
                Heard {
                    source: heard.source.0,
                    destination: heard.destination.0,
                    hearing: HEARING_VALID,
                    next_header: u32::from(NEXT_HEADER_ICMPV6),
                    options: HEADERS_LENGTH as u32 + fields,
                    options_bytes: payload_length(frame).saturating_sub(fields),
                    ..message
                }
            }
            Hearing::Other(packet) => Heard {
                source: packet.header.source.0,
                destination: packet.header.destination.0,
                hearing: HEARING_OTHER,
                next_header: u32::from(packet.header.next_header),
                ..NOTHING
            },
            Hearing::Drop(why) => Heard {
                hearing: HEARING_DROP,
                why: u32::from(why.number()),
                ..NOTHING
            },
        }
    }

    /// Returns the fields of a message.
    fn of_body(body: &Body) -> Heard
        ensures { result ≡ with_body body.now }
    {
        let message_type = u32::from(body.message_type().number());
        match body {
            Body::Rs => Heard {
                message_type,
                ..NOTHING
            },
            Body::Ra(ra) => Heard {
                message_type,
                reachable_time: ra.reachable_time,
                retrans_timer: ra.retrans_timer,
                router_lifetime: u32::from(ra.router_lifetime),
                hop_limit: ra.hop_limit,
                managed: u8::from(ra.managed),
                other: u8::from(ra.other),
                preference: preference_number(ra.preference),
                ..NOTHING
            },
            Body::Ns(ns) => Heard {
                message_type,
                target: ns.target.0,
                ..NOTHING
            },
            Body::Na(na) => Heard {
                message_type,
                target: na.target.0,
                router: u8::from(na.router),
                solicited: u8::from(na.solicited),
                override_flag: u8::from(na.override_flag),
                ..NOTHING
            },
            Body::Redirect(redirect) => Heard {
                message_type,
                target: redirect.target.0,
                redirected: redirect.destination.0,
                ..NOTHING
            },
        }
    }
}

/// Returns the number of a preference in the header.
pub fn preference_number(preference: Preference) -> u8
    ensures { result ≡ preference_number preference }
{
    match preference {
        Preference::Medium => PREFERENCE_MEDIUM,
        Preference::High => PREFERENCE_HIGH,
        Preference::Low => PREFERENCE_LOW,
    }
}

/// Returns the number of bytes of a message before its options (RFC 4861, section 4).
fn fields_length(body: &Body) -> u32
    ensures { result ≡ least_length (with_body body.now).message_type }
{
    body.message_type().least_length() as u32
}

/// Returns the payload length of a packet in a frame, in bytes (RFC 8200, section 3).
fn payload_length(frame: &[u8]) -> u32
    ensures { result ≡ payload_length_of (packet_in frame.now) }
{
    let at = ETHERNET_HEADER_LENGTH + IPV6_PAYLOAD_LENGTH_AT;
    u32::from(byte(frame, at)) * 256 + u32::from(byte(frame, at + 1))
}

/// Returns a byte of a frame, or 0 after its end.
fn byte(frame: &[u8], at: usize) -> u8
    ensures { result ≡ slice_index frame.now at }
{
    match frame.get(at) {
        Some(byte) => *byte,
        None => 0,
    }
}
