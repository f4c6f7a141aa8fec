//! What is heard in a frame (RFC 4861, sections 6.1, 7.1 and 8.1): a valid message, a packet that is no message, or the first reason to drop it.
//! Nothing is copied, and no memory is taken.
#![tactic(auto)]

mod hearing;
pub mod laws;
mod validity;

pub use hearing::{Heard, Hearing, hear, hear_in_some_role};
