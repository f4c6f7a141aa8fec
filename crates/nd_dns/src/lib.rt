//! The DNS servers and search names that a host has heard of (RFC 8106, section 5).
#![tactic(auto)]

mod announced_names;
mod announced_servers;
mod dns;
pub mod laws;
mod new_names;
mod router_advertisement;
mod search_name;

pub use announced_names::AnnouncedNames;
pub use dns::{Dns, MAX_NAMES, MAX_SERVERS};
pub use nd_table::{Limit, TableRefusal, WithLifetime, WithLifetimes};
pub use new_names::NewNames;
pub use search_name::SearchName;
