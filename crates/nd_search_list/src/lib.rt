//! The domain names of a search list in a message of Neighbor Discovery (RFC 8106, section 5.2): borrowed over their bytes, with no memory taken.
#![tactic(auto)]

mod name_ref;
mod names;
mod reading;
mod text;

pub use name_ref::NameRef;
pub use names::Names;
pub use reading::is_name;
