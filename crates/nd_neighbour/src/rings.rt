//! The rings in reserve for the packets of new neighbours. Their definition is in `specs/Rings.antt`.

ghost use Rattle.std.specs.Prelude.{IfErr, IfOk, IfSome, IsOk, OnErr, OnOk, is_some, max, nat_lt, ◌-◌, ◌≡◌, ◌≤◌};
ghost use Rattle.nd_packet.specs.Waiting.{max_waiting};
ghost use Rattle.nd_neighbour.specs.TableKept.{max_rings};

use crate::cache::Cache;
use crate::refusal::CacheRefusal;
use nd_packet::Ring;
use std::alloc::{AllocError, Allocator};
use std::marker::Model;

/// At most two rings in reserve: one packet may need one for its neighbour and, as `room` asks, one for a second neighbour.
#[derive(Drop)]
pub(crate) struct Rings<A: Allocator> {
    /// The number of packets for which each has room.
    room: usize,
    first: Option<Ring<A>>,
    /// There is none without a first one.
    second: Option<Ring<A>>,
}

impl<A: Allocator> Model for Rings<A> {
    ghost use Rattle.std.specs.Prelude.{IfSome, is_some, true, ◌+◌, ◌≡◌, ◌≤◌};
    ghost use Rattle.nd_packet.specs.Waiting.{max_waiting};
    ghost use Rattle.nd_neighbour.specs.Rings.{Rings, count_of};

    ghost Value = { Rings };

    ghost view = { λ r. record { room = r.room; count = count_of r.first + count_of r.second } };

    ghost invariant = { λ r. (1 ≤ r.room) × (r.room ≤ max_waiting) × IfSome r.first (λ ring. ring.waiting.room ≡ r.room) × IfSome r.second (λ ring. ring.waiting.room ≡ r.room) × (is_some r.second ≡ true → is_some r.first ≡ true) };
}

impl<A: Allocator> Rings<A> {
    /// Returns a reserve without rings, of which each has room for so many packets, 1 to 8.
    pub(crate) fn new(room: usize) -> Self
        requires least { 1 ≤ room }
        requires most { room ≤ max_waiting }
        ensures { result ≡ record { room = room; count = 0 } }
    {
        Rings {
            room,
            first: None,
            second: None,
        }
    }

    /// Takes a ring out of the reserve, if there is one.
    fn take(&mut self) -> Option<Ring<A>>
        ensures some { is_some result ≡ nat_lt 0 self.old.count }
        ensures room { IfSome result (λ ring. ring.waiting.room ≡ self.old.room) }
        ensures fewer { self.new ≡ record { room = self.old.room; count = self.old.count - 1 } }
    {
        match self.second.take() {
            Some(ring) => Some(ring),
            None => self.first.take(),
        }
    }
}

impl<A: Allocator + Clone> Rings<A> {
    /// Returns a ring for a new entry: one in reserve, or a new one. Returns an error if out of memory.
    pub(crate) fn take_or_make(&mut self, alloc: &A) -> Result<Ring<A>, AllocError>
        ensures room { IfOk result (λ ring. ring.waiting.room ≡ self.old.room) }
        ensures least { 1 ≤ self.old.room }
        ensures in_hand { 1 ≤ self.old.count → IsOk result }
        ensures fewer { OnOk result (self.new ≡ record { room = self.old.room; count = self.old.count - 1 }) }
        ensures same { OnErr result (self.new ≡ self.old) }
    {
        match self.take() {
            Some(ring) => Ok(ring),
            None => Ring::new(alloc.clone()?, self.room),
        }
    }

    /// Makes rings until `n` are in reserve.
    fn fill(&mut self, alloc: &A, n: usize) -> Result<(), AllocError>
        requires { n ≤ max_rings }
        ensures ok { OnOk result (n ≤ self.new.count) }
        ensures in_hand { n ≤ self.old.count → IsOk result }
        ensures kept { self.old.count ≤ self.new.count }
        ensures no_more { self.new.count ≤ max n self.old.count }
        ensures room { self.new.room ≡ self.old.room }
    {
        if n >= 1 && self.first.is_none() {
            self.first = Some(Ring::new(alloc.clone()?, self.room)?);
        }
        if n >= 2 && self.second.is_none() {
            self.second = Some(Ring::new(alloc.clone()?, self.room)?);
        }
        Ok(())
    }
}

impl<A: Allocator + Clone> Cache<A> {
    /// Makes rings for new neighbours until `n`, at most two, are in reserve. With a ring in reserve `used` takes no memory. Returns `Memory` if
    /// the allocator refuses one; those that were made before it stay in reserve.
    pub fn ready(&mut self, n: usize) -> Result<(), CacheRefusal>
        requires { n ≤ max_rings }
        ensures ok { OnOk result (n ≤ self.new.rings) }
        ensures err { IfErr result (λ refusal. refusal ≡ CacheRefusal.Memory) }
        ensures in_hand { n ≤ self.old.rings → IsOk result }
        ensures kept { self.old.rings ≤ self.new.rings }
        ensures no_more { self.new.rings ≤ max n self.old.rings }
        ensures entries { self.new.entries ≡ self.old.entries }
        ensures limit { self.new.limit ≡ self.old.limit }
        ensures waiting { self.new.waiting ≡ self.old.waiting }
    {
        match self.rings.fill(self.entries.allocator(), n) {
            Ok(()) => Ok(()),
            Err(_) => Err(CacheRefusal::Memory),
        }
    }
}
