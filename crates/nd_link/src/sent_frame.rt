//! A frame that was sent, with its sender.

ghost use Rattle.nd_addr.specs.Bytes.{IsBytes};

use std::alloc::Allocator;

/// A frame that a node of a link sent, by the number of the node.
#[derive(Drop)]
pub(crate) struct SentFrame<A: Allocator> {
    pub(crate) sender: usize,
    pub(crate) frame: Vec<u8, A>,
    ghost bytes: { IsBytes frame.items },
}
