//! The command line of `ndpctl`: what its words ask for.
#![tactic(auto)]

mod asked;
mod command;
mod options;
mod words;

pub use asked::{Asked, Carrier, Refused};
pub use words::read_words;
