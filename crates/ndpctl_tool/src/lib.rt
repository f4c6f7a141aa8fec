//! What `ndpctl` does: what its words ask for, over any reader and any runtime, and how it ends.
#![tactic(auto)]

mod ending;
mod link;
mod program;
pub mod run;

pub use ending::Ending;
pub use program::tool;
