//! A node and its reports in one value, for programs that take each report by a call.
//!
//! `Session` is the node with its reports. Each event appends what the node sends and reports; `oldest` returns the first report
//! that the caller has not taken yet, and `take` removes it. The random words are those of a `Source` of `nd_random`.
//!
//! `Slot` is the form in which a program in another language keeps a session: a flag and an untyped pointer, whose owner is a ghost
//! (`specs/Held.antt`). A function for that language takes the session out of the slot, calls it, and puts it back.
#![tactic(auto)]

mod confirmation;
mod handle;
pub mod laws;
mod paths;
mod questions;
mod resolve;
mod session;
mod slot;

pub use confirmation::Confirmation;
pub use resolve::PathAnswer;
pub use session::Session;
pub use slot::Slot;
