//! What the definitions ask for exists: each history of a node has a chronicle and each script a text, all events on a link have a log, and all lines of
//! a link a text. Definitions of the premises and the laws, and no code that runs.
#![tactic(auto)]

pub mod link;
pub mod link_script;
pub mod node;
pub mod script;
