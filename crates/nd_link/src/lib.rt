//! Nodes on one link that hear one another (RFC 4861, section 2.1). Each event does what is due at the nodes, carries what it carries, and reports
//! what happened, so that the events alone decide everything.
#![tactic(auto)]

mod arrival;
mod delivery;
mod due;
mod event;
mod fault;
mod frames;
mod link;
mod passing;
mod refusal;
mod sent_frame;
mod start;
mod told;
mod turn;

pub use event::LinkEvent;
pub use fault::LinkFault;
pub use link::{Link, MAX_NODES};
pub use nd_wire::{FailingWire, MemoryWire, UdpWire, Wire, WireFault};
pub use refusal::Refusal;
pub use told::Told;
