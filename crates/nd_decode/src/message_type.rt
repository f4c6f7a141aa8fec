ghost use Rattle.std.specs.Prelude.{◌≡◌, ◌≢◌, MatchOption};
ghost use Rattle.nd_decode.specs.MessageType.{type_number};
ghost use Rattle.nd_decode.specs.Message.{least_length};

use crate::neighbor_advertisement::NeighborAdvertisement;
use crate::neighbor_solicitation::NeighborSolicitation;
use crate::redirect::Redirect;
use crate::router_advertisement::RouterAdvertisement;

/// The ICMPv6 type of a Router Solicitation (RFC 4861, section 4.1).
pub const ICMPV6_ROUTER_SOLICITATION: u8 = 133;

/// The ICMPv6 type of a Router Advertisement (RFC 4861, section 4.2).
pub const ICMPV6_ROUTER_ADVERTISEMENT: u8 = 134;

/// The ICMPv6 type of a Neighbor Solicitation (RFC 4861, section 4.3).
pub const ICMPV6_NEIGHBOR_SOLICITATION: u8 = 135;

/// The ICMPv6 type of a Neighbor Advertisement (RFC 4861, section 4.4).
pub const ICMPV6_NEIGHBOR_ADVERTISEMENT: u8 = 136;

/// The ICMPv6 type of a Redirect (RFC 4861, section 4.5).
pub const ICMPV6_REDIRECT: u8 = 137;

/// The hop limit of every message of Neighbor Discovery: no router can have sent it on (RFC 4861, section 3.1).
pub const HOP_LIMIT: u8 = 255;

/// The number of bytes of a Router Solicitation before its options (RFC 4861, section 4.1). It has no fields.
pub const ROUTER_SOLICITATION_LENGTH: usize = 8;

/// The types of the messages of Neighbor Discovery (RFC 4861, sections 4.1 to 4.5).
#[derive(Clone, Copy, Debug, PartialEq, Eq)]
pub enum MessageType {
    RouterSolicitation,
    RouterAdvertisement,
    NeighborSolicitation,
    NeighborAdvertisement,
    Redirect,
}

impl MessageType {
    /// Returns the type of this number. No other number than 133 to 137 is that of a message.
    pub fn of(number: u8) -> Option<MessageType>
        ensures { MatchOption result ((kind : MessageType) → number ≢ type_number kind) (λ kind. number ≡ type_number kind) }
    {
        match number {
            ICMPV6_ROUTER_SOLICITATION => Some(MessageType::RouterSolicitation),
            ICMPV6_ROUTER_ADVERTISEMENT => Some(MessageType::RouterAdvertisement),
            ICMPV6_NEIGHBOR_SOLICITATION => Some(MessageType::NeighborSolicitation),
            ICMPV6_NEIGHBOR_ADVERTISEMENT => Some(MessageType::NeighborAdvertisement),
            ICMPV6_REDIRECT => Some(MessageType::Redirect),
            _ => None,
        }
    }

    /// Returns the number of the type, 133 to 137.
    pub fn number(self) -> u8
        ensures { result ≡ type_number self }
    {
        match self {
            MessageType::RouterSolicitation => ICMPV6_ROUTER_SOLICITATION,
            MessageType::RouterAdvertisement => ICMPV6_ROUTER_ADVERTISEMENT,
            MessageType::NeighborSolicitation => ICMPV6_NEIGHBOR_SOLICITATION,
            MessageType::NeighborAdvertisement => ICMPV6_NEIGHBOR_ADVERTISEMENT,
            MessageType::Redirect => ICMPV6_REDIRECT,
        }
    }

    /// Returns the least number of bytes of a message of the type, which is where its options begin (RFC 4861, sections 4.1 to 4.5). A shorter
    /// message is refused for `Length`.
    pub fn least_length(self) -> usize
        ensures { result ≡ least_length (type_number self) }
    {
        match self {
            MessageType::RouterSolicitation => ROUTER_SOLICITATION_LENGTH,
            MessageType::RouterAdvertisement => RouterAdvertisement::LENGTH,
            MessageType::NeighborSolicitation => NeighborSolicitation::LENGTH,
            MessageType::NeighborAdvertisement => NeighborAdvertisement::LENGTH,
            MessageType::Redirect => Redirect::LENGTH,
        }
    }
}
