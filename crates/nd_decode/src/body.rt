ghost use Rattle.std.specs.Prelude.{◌≡◌, ◌≤◌, length};
ghost use Rattle.nd_decode.specs.Message.{least_length};
ghost use Rattle.nd_decode.specs.MessageType.{type_number, type_of};
ghost use Rattle.nd_decode.specs.Decoding.{body_as};

use crate::message_type::MessageType;
use crate::neighbor_advertisement::NeighborAdvertisement;
use crate::neighbor_solicitation::NeighborSolicitation;
use crate::redirect::Redirect;
use crate::router_advertisement::RouterAdvertisement;

/// A message without its options (RFC 4861, section 4).
#[derive(Clone, Copy, Debug, PartialEq, Eq)]
pub enum Body {
    /// A Router Solicitation, which has no fields (RFC 4861, section 4.1).
    Rs,
    /// A Router Advertisement (RFC 4861, section 4.2).
    Ra(RouterAdvertisement),
    /// A Neighbor Solicitation (RFC 4861, section 4.3).
    Ns(NeighborSolicitation),
    /// A Neighbor Advertisement (RFC 4861, section 4.4).
    Na(NeighborAdvertisement),
    /// A Redirect (RFC 4861, section 4.5).
    Redirect(Redirect),
}

impl Body {
    /// Returns the type of the message.
    pub fn message_type(&self) -> MessageType
        ensures { result ≡ type_of self.now }
    {
        match self {
            Body::Rs => MessageType::RouterSolicitation,
            Body::Ra(_) => MessageType::RouterAdvertisement,
            Body::Ns(_) => MessageType::NeighborSolicitation,
            Body::Na(_) => MessageType::NeighborAdvertisement,
            Body::Redirect(_) => MessageType::Redirect,
        }
    }

    /// Returns the fields of a message of a type.
    pub(crate) fn read(kind: MessageType, bytes: &[u8]) -> Body
        requires { least_length (type_number kind) ≤ length bytes.now }
        ensures { result ≡ body_as kind bytes.now }
    {
        match kind {
            MessageType::RouterSolicitation => Body::Rs,
            MessageType::RouterAdvertisement => Body::Ra(RouterAdvertisement::read(bytes)),
            MessageType::NeighborSolicitation => Body::Ns(NeighborSolicitation::read(bytes)),
            MessageType::NeighborAdvertisement => Body::Na(NeighborAdvertisement::read(bytes)),
            MessageType::Redirect => Body::Redirect(Redirect::read(bytes)),
        }
    }
}
