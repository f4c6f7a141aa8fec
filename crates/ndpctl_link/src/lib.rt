//! The lines of a link, which start nodes, pass commands to them and carry frames; and the text of what the link reports.
#![tactic(auto)]

mod command;
mod delivery;
pub mod laws;
mod line;
mod node_command;
mod role;
mod run;
mod script;
mod start;
mod told;

pub use command::LinkCommand;
pub use line::{LinkLine, read_line};
pub use run::run_link;
pub use script::LinkScript;
pub use told::write_told;
