//! A link: its nodes, its frames and its wire. The definitions are in `specs/Link.antt`.

ghost use Rattle.std.specs.Prelude.{◌≡◌, ◌≤◌, ◌<◌, ◌^◌, [], false, vec_len};
ghost use Rattle.nd_link_log.specs.Event.{max_nodes};

use crate::sent_frame::SentFrame;
use nd_node::Node;
use nd_wire::Wire;
use rand_core::Rng;
use std::alloc::Allocator;

/// The most nodes of a link (our choice).
pub const MAX_NODES: usize = 16;

/// Nodes on one link, where the frames of each can be carried to the others (RFC 4861, section 2.1). Each moment that it takes is in
/// milliseconds, and it starts at 0.
#[derive(Drop)]
pub struct Link<W, R, A: Allocator> {
    pub(crate) alloc: A,
    pub(crate) wire: W,
    /// Each node is at the place of its number.
    pub(crate) nodes: Vec<Node<R, A>, A>,
    /// Each frame is at the place of its number.
    pub(crate) frames: Vec<SentFrame<A>, A>,
    /// The moment up to which time has passed.
    pub(crate) last: u64,
    /// An earlier call was out of memory.
    pub(crate) spent: bool,
    ghost few: { vec_len nodes ≤ max_nodes },
    ghost early: { last < 2 ^ 62 },
}

impl<W: Wire, R: Rng + Drop, A: Allocator + Copy> Link<W, R, A> {
    ghost use Rattle.nd_link.specs.Link.{Stands};

    /// Returns a link on which no node has started.
    pub fn new(alloc: A, wire: W) -> Self
        ensures stands { Stands R.stream result [] }
        ensures wire { result.wire ≡ wire }
        ensures unspent { result.spent ≡ false }
    {
        Link {
            alloc,
            wire,
            nodes: Vec::new(alloc),
            frames: Vec::new(alloc),
            last: 0,
            spent: false,
        }
    }

    /// Returns the number of calls of its wire that failed, up to the greatest number of 64 bits.
    pub fn failures(&self) -> u64
        ensures { result ≡ W.failed self.now.wire }
    {
        self.wire.failures()
    }
}
