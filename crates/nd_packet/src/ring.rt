ghost use Rattle.std.specs.Prelude.{◌≡◌, ◌≤◌, ◌∷◌, [], IfOk};
ghost use Rattle.nd_packet.specs.Waiting.{max_waiting};

use crate::packet::Packet;
use crate::waiting::Waiting;
use std::alloc::{AllocError, Allocator};

/// Room for the packets of a future neighbour, taken beforehand, so that adding the neighbour takes no memory.
#[derive(Drop)]
pub struct Ring<A: Allocator> {
    waiting: Waiting<A>,
    ghost empty: { waiting.packets ≡ [] },
}

impl<A: Allocator> Ring<A> {
    /// Returns such room for so many packets, 1 to 8, or an error if out of memory. No other call takes memory.
    pub fn new(alloc: A, room: usize) -> Result<Self, AllocError>
        requires least { 1 ≤ room }
        requires most { room ≤ max_waiting }
        ensures { IfOk result (λ ring. ring.waiting ≡ record { room = room; packets = [] }) }
    {
        Ok(Ring {
            waiting: Waiting::new(alloc, room)?,
        })
    }

    /// Returns the packets of the neighbour, of which there is none yet.
    pub fn empty(self) -> Waiting<A>
        ensures value { result ≡ record { room = self.waiting.room; packets = [] } }
        ensures least { 1 ≤ result.room }
    {
        self.waiting
    }

    /// Returns the packets of the neighbour, of which `packet` is the first.
    pub fn with(self, packet: Packet<A>) -> Waiting<A>
        ensures value { result ≡ record { room = self.waiting.room; packets = packet ∷ [] } }
        ensures least { 1 ≤ result.room }
    {
        let mut waiting = self.waiting;
        let _ = waiting.put(packet);
        waiting
    }
}
