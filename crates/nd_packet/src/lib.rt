//! Packets that wait for an address (RFC 4861, section 7.2.2): at most as many for each neighbour as the limit, the oldest first.
#![tactic(auto)]

mod packet;
mod packets;
mod ring;
mod waiting;

pub use packet::Packet;
pub use packets::Packets;
pub use ring::Ring;
pub use waiting::{MAX_WAITING, Waiting};
