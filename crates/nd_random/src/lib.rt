//! The sources of a node's random words: a generator from a seed, or one word each time.
#![tactic(auto)]

pub mod laws;
mod source;

pub use source::Source;
