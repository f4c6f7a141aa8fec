//! Addresses, and the layers below a Neighbor Discovery message on the wire: the Ethernet frame, the IPv6 header and the ICMPv6 checksum.
#![tactic(auto)]

mod addr;
mod bytes;
mod checksum;
mod frame;
mod interface_id;
mod ip6;
mod kind;
pub mod laws;
mod mac;
mod parse;
mod parse_mac;
mod parse_prefix;
mod preference;
mod prefix;
mod role;
mod room;
mod text;
mod why;

pub use addr::Addr;
pub use checksum::{SUM_AT, sum_for, sum_is_good};
pub use frame::{
    ETHERNET_HEADER_LENGTH, ETHERNET_IPV6, ETHERNET_MTU, Frame, FrameRef, HEADERS_LENGTH, headers,
    put_headers, write_frame,
};
pub use ip6::{
    IPV6_DESTINATION_AT, IPV6_HEADER_LENGTH, IPV6_PAYLOAD_LENGTH_AT, IPV6_SOURCE_AT, Ip6, Ip6Ref,
    LEAST_MTU, NEXT_HEADER_ICMPV6,
};
pub use mac::Mac;
pub use parse::TextFault;
pub use preference::Preference;
pub use prefix::Prefix;
pub use role::Role;
pub use room::put_bytes;
pub use why::Why;
