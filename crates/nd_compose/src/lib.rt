//! The frames that a node sends for itself (RFC 4861, sections 4 and 7.2; RFC 4862, section 5.4). The short ones are written into room that is
//! reserved beforehand, so that sending one takes no memory, and so is a Router Advertisement; a Redirect is made before it is sent.
#![tactic(auto)]

mod advertisement;
mod frame_room;
pub mod laws;
mod long_frame;
mod open_mac;
mod redirect;
mod router_advertisement;
mod router_solicitation;
mod short_frame;
mod solicitation;

pub use frame_room::{FrameRoom, LONGEST_MESSAGE};
pub use open_mac::OPEN_MAC;
pub use redirect::redirect_frame;
