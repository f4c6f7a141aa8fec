//! The parameters of a link, as its routers announce them (RFC 4861, section 6.3.4).
#![tactic(auto)]

pub mod laws;
mod params;
mod reachable_time;
mod router_advertisement;
mod values;

pub use params::{Params, REACHABLE_TIME};
pub use reachable_time::reachable_range;
