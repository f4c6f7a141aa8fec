//! The neighbour cache of a host or a router (RFC 4861, sections 5.1, 7.2 and 7.3). Moments and times are in milliseconds.
//!
//! Each event has a file, and its definition in `specs/` has the same name: a message gives a link-layer address (`link_layer_address`), an
//! advertisement is received (`neighbor_advertisement`: 7.2.5), an upper layer confirms reachability (`reachability_confirmation`: 7.3.1), a packet
//! is sent, or its sender keeps it (`sending` and `wanting`, with `address_resolution`: 7.2.2, and `unreachability_detection`: 7.3.3), and time passes (`due`).
#![tactic(auto)]

mod address_resolution;
mod cache;
mod due;
mod entry;
mod giving_way;
pub mod laws;
mod lease;
mod link_layer_address;
mod neighbor_advertisement;
mod news;
mod place;
mod reachability_confirmation;
mod refusal;
mod removal;
mod rings;
mod room;
mod sending;
mod shown;
mod unreachability_detection;
mod wanting;

pub use cache::{Cache, MAX_NEIGHBOURS};
pub use due::Due;
pub use entry::Entry;
pub use nd_packet::{Packet, Packets};
pub use nd_table::Probes;
pub use news::{Flags, News, Times, Touched};
pub use refusal::CacheRefusal;
pub use sending::Use;
pub use shown::{Neighbour, Neighbours, Reachability};
pub use wanting::Want;
