//! What a router advertises (RFC 4861, section 6.2).
#![tactic(auto)]

mod advertiser;
mod advertising;
mod config;
mod config_fault;
mod contents;
pub mod laws;
mod offer;
mod offer_rows;
mod offers;

pub use advertiser::Advertiser;
pub use config::{Config, ConfigFlags, GREATEST_LIFETIME, GREATEST_REACHABLE_TIME};
pub use config_fault::ConfigFault;
pub use contents::Contents;
pub use offer::{Offer, OfferFlags};
pub use offer_rows::OfferRows;
pub use offers::{Full, MAX_OFFERS};
