ghost use Rattle.std.specs.Prelude.{◌≡◌, [], IfOk, ◌≤◌, length, drop, slice_get};
ghost use Rattle.nd_packet.specs.Waiting.{max_waiting, replaced, then_waits};

use crate::packet::Packet;
use circular_buffer::HeapCircularBuffer;
use std::alloc::{AllocError, Allocator};
use std::marker::Model;

/// The greatest limit on the packets that wait for one address. Our choice: RFC 4861, section 7.2.2, asks for at least one.
pub const MAX_WAITING: usize = 8;

/// Packets that wait for an address, the oldest first.
#[derive(Drop)]
pub struct Waiting<A: Allocator> {
    ring: HeapCircularBuffer<Packet<A>, A>,
}

impl<A: Allocator> Model for Waiting<A> {
    ghost use Rattle.std.specs.Prelude.{◌≤◌};
    ghost use Rattle.nd_packet.specs.Waiting.{Waiting, max_waiting};

    ghost Value = { Waiting };

    ghost view = { λ w. record { room = w.ring.capacity; packets = w.ring.items } };

    ghost invariant = { λ w. (1 ≤ w.ring.capacity) × (w.ring.capacity ≤ max_waiting) };
}

impl<A: Allocator> Waiting<A> {
    /// Returns room for so many packets, 1 to 8, or an error if out of memory. No other call takes memory.
    pub fn new(alloc: A, room: usize) -> Result<Self, AllocError>
        requires least { 1 ≤ room }
        requires most { room ≤ max_waiting }
        ensures { IfOk result (λ w. w ≡ record { room = room; packets = [] }) }
    {
        Ok(Waiting {
            ring: HeapCircularBuffer::with_capacity(alloc, room)?,
        })
    }

    /// Appends a packet. One for which there is no room replaces the oldest, which is returned.
    pub fn put(&mut self, packet: Packet<A>) -> Option<Packet<A>>
        ensures last { self.new ≡ record { room = self.old.room; packets = then_waits self.old.room self.old.packets packet } }
        ensures replaced { result ≡ replaced self.old.room self.old.packets packet }
    {
        self.ring.push_back(packet)
    }

    /// Removes the oldest packet and returns it.
    pub fn take(&mut self) -> Option<Packet<A>>
        ensures rest { self.new ≡ record { room = self.old.room; packets = drop 1 self.old.packets } }
        ensures oldest { result ≡ slice_get self.old.packets 0 }
    {
        self.ring.pop_front()
    }

    /// Returns the number of packets that wait.
    pub fn len(&self) -> usize
        ensures value { result ≡ length self.now.packets }
        ensures few { result ≤ self.now.room }
        ensures most { result ≤ max_waiting }
    {
        self.ring.len()
    }
}
