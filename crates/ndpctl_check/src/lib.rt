//! `ndpctl check`: a line holds a frame in hexadecimal, and its answer says what the frame is or why it
//! is dropped.
#![tactic(auto)]

mod check;
mod message_text;
mod option_text;
mod telling;
mod words;

pub use check::run_check;
pub use telling::tell;
