//! The lines of a script that a node reads.
#![tactic(auto)]

mod address;
mod bytes;
mod command;
mod flags;
pub mod laws;
mod line;
mod number;
mod offer;
mod options;
mod own_address;
mod packet;
mod policies;
mod prefix;
mod route;
mod run;
mod script;
mod settings;
mod source;
mod table;
mod transmits;
mod words;

pub use command::{Command, read_command};
pub use line::{Line, read_line, split_moment};
pub use number::{read_count, read_number, split_number};
pub use options::RunOptions;
pub use policies::read_policies;
pub use run::run_script;
pub use source::read_source;
pub use transmits::read_transmits;
pub use words::{split_word, two_words};
