ghost use Rattle.std.specs.Prelude.{◌≡◌, ◌==◌, ◌≤◌, [], length, drop, slice_get};
ghost use Rattle.nd_packet.specs.Waiting.{max_waiting};

use crate::packet::Packet;
use crate::waiting::Waiting;
use std::alloc::Allocator;
use std::marker::Model;

/// Packets that waited for an address and no longer do, the oldest first.
#[derive(Drop)]
pub struct Packets<A: Allocator> {
    waiting: Option<Waiting<A>>,
}

impl<A: Allocator> Model for Packets<A> {
    ghost use Rattle.std.specs.Prelude.{List, ℕ, [], option_map, unwrap_or};

    ghost Value = { List (List ℕ) };

    ghost view = { λ p. unwrap_or (option_map (λ w. w.packets) p.waiting) [] };
}

impl<A: Allocator> Packets<A> {
    /// Returns no packets.
    pub fn none() -> Self
        ensures { result ≡ [] }
    {
        Packets { waiting: None }
    }

    /// Returns all packets that waited for one address.
    pub fn of(waiting: Waiting<A>) -> Self
        ensures { result ≡ waiting.packets }
    {
        Packets {
            waiting: Some(waiting),
        }
    }

    /// Removes the oldest packet and returns it.
    pub fn take(&mut self) -> Option<Packet<A>>
        ensures rest { self.new ≡ drop 1 self.old }
        ensures oldest { result ≡ slice_get self.old 0 }
    {
        match &mut self.waiting {
            Some(waiting) => waiting.take(),
            None => None,
        }
    }

    /// Returns the number of packets, at most eight.
    pub fn len(&self) -> usize
        ensures value { result ≡ length self.now }
        ensures few { length self.now ≤ max_waiting }
    {
        match &self.waiting {
            Some(waiting) => waiting.len(),
            None => 0,
        }
    }

    /// Returns true if there are no packets.
    pub fn is_empty(&self) -> bool
        ensures { result ≡ (length self.now == 0) }
    {
        self.len() == 0
    }
}
