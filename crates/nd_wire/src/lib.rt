//! Wires, which carry frames from one node of a link to another. They know nothing of what a frame says, and only the number of a node.
#![tactic(auto)]

mod failing_wire;
pub mod laws;
mod memory_wire;
mod udp_wire;
mod wire;

pub use failing_wire::FailingWire;
pub use memory_wire::MemoryWire;
pub use udp_wire::UdpWire;
pub use wire::{Wire, WireFault};

#[cfg(test)]
mod tests;
