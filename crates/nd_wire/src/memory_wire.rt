//! A wire that loses nothing.

ghost use Rattle.std.specs.Prelude.{◌≡◌, ◌≤◌, [], length, OnOk, IsOk, vec_capacity};

use crate::wire::{Wire, WireFault};
use std::alloc::Allocator;

/// Delivers the frame itself. It never fails, and takes no memory.
#[derive(Clone, Copy)]
pub struct MemoryWire;

impl Wire for MemoryWire {
    ghost arrives = { λ _ frame bytes. bytes ≡ frame };

    ghost failed = { λ _. 0 };

    // What the clauses of `Wire::carry` mean here, and that it succeeds.
    fn carry<A: Allocator>(
        &mut self,
        _to: usize,
        frame: &[u8],
        into: &mut Vec<u8, A>,
    ) -> Result<(), WireFault>
        requires empty { into.old.items ≡ [] }
        requires room { length frame.now ≤ vec_capacity into.old }
        ensures arrives { OnOk result (into.new.items ≡ frame.now) }
        ensures succeeds { IsOk result }
    {
        match into.extend_from_slice(frame) {
            Ok(()) => Ok(()),
            Err(_) => unreachable!(), // There is room.
        }
    }

    fn failures(&self) -> u64 {
        0
    }
}
