//! Reading messages of Neighbor Discovery (RFC 4861, section 4; RFC 8106, section 5): borrowed values over their bytes, with
//! no memory taken.
#![tactic(auto)]

mod body;
mod decoding;
mod flag_letters;
mod message_ref;
mod message_type;
mod neighbor_advertisement;
mod neighbor_solicitation;
mod option_ref;
mod option_walk;
mod options;
mod pieces;
mod prefix_info;
mod reading;
mod redirect;
mod router_advertisement;
mod servers;

pub use body::Body;
pub use decoding::{decode, decode_as};
pub use flag_letters::{prefix_flags_text, router_flags_text};
pub use message_ref::MessageRef;
pub use message_type::{
    HOP_LIMIT, ICMPV6_NEIGHBOR_ADVERTISEMENT, ICMPV6_NEIGHBOR_SOLICITATION, ICMPV6_REDIRECT,
    ICMPV6_ROUTER_ADVERTISEMENT, ICMPV6_ROUTER_SOLICITATION, MessageType,
    ROUTER_SOLICITATION_LENGTH,
};
pub use nd_search_list::{NameRef, Names};
pub use neighbor_advertisement::NeighborAdvertisement;
pub use neighbor_solicitation::NeighborSolicitation;
pub use option_ref::{
    LEAST_NAMES_UNITS, LEAST_SERVERS_UNITS, LINK_LAYER_ADDRESS_UNITS, LONGEST_OPTION, MTU_UNITS,
    OPTION_DATA_AT, OPTION_DNS_SEARCH_LIST, OPTION_MTU, OPTION_PREFIX_INFORMATION,
    OPTION_RECURSIVE_DNS_SERVER, OPTION_REDIRECTED_HEADER, OPTION_SOURCE_LINK_LAYER_ADDRESS,
    OPTION_TARGET_LINK_LAYER_ADDRESS, OptionRef,
};
pub use options::Options;
pub use prefix_info::PrefixInfo;
pub use reading::Reading;
pub use redirect::Redirect;
pub use router_advertisement::RouterAdvertisement;
pub use servers::{SERVER_BYTES, Servers, is_server};
