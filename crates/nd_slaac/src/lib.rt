//! The addresses of an interface, formed by the interface itself or given by hand (RFC 4862, section 5).
#![tactic(auto)]

mod addresses;
mod by_hand;
mod destination;
mod due;
mod duplicate;
mod entry;
pub mod laws;
mod link_local;
mod own_address;
mod prefix_option;
mod room;
mod shown;
mod stage;
mod state;
mod transmits;
mod two_hours;

pub use addresses::{AddressRoom, Addresses, MAX_ADDRESSES};
pub use destination::Counted;
pub use due::Due;
pub use own_address::OwnAddress;
pub use prefix_option::{Full, Taken};
pub use shown::{ShownAddress, ShownAddresses};
pub use state::State;
pub use transmits::Transmits;
pub use two_hours::renewed;
