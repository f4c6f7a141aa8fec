//! Messages of Neighbor Discovery (RFC 4861, section 4; RFC 8106, section 5) that own their options, and writing them. Reading is in `nd_decode`,
//! whose items this crate re-exports.
#![tactic(auto)]

mod dnssl;
mod encoding;
mod fields;
mod flags;
mod frame;
pub mod laws;
mod length;
mod link_layer_address;
mod message;
mod mtu;
mod name;
mod neighbor_advertisement;
mod neighbor_solicitation;
mod opt;
mod other;
mod prefix_information;
mod rdnss;
mod redirect;
mod redirected;
mod router_advertisement;
mod router_solicitation;

pub use encoding::{encode, put_message};
pub use frame::put_frame;
pub use length::written_length;
pub use message::Message;
pub use name::Name;
pub use nd_decode::{
    Body, HOP_LIMIT, ICMPV6_NEIGHBOR_ADVERTISEMENT, ICMPV6_NEIGHBOR_SOLICITATION, ICMPV6_REDIRECT,
    ICMPV6_ROUTER_ADVERTISEMENT, ICMPV6_ROUTER_SOLICITATION, MessageRef, MessageType, NameRef,
    Names, NeighborAdvertisement, NeighborSolicitation, OPTION_DNS_SEARCH_LIST, OPTION_MTU,
    OPTION_PREFIX_INFORMATION, OPTION_RECURSIVE_DNS_SERVER, OPTION_REDIRECTED_HEADER,
    OPTION_SOURCE_LINK_LAYER_ADDRESS, OPTION_TARGET_LINK_LAYER_ADDRESS, OptionRef, Options,
    PrefixInfo, Redirect, RouterAdvertisement, Servers, decode, decode_as, is_server,
};
pub use opt::Opt;
