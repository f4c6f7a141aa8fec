//! A wire for tests of what is left after a fault.

ghost use Rattle.std.specs.Prelude.{◌≡◌, ◌≢◌, ◌≤◌, [], Some, length, OnOk, OnErr, IsErr, vec_capacity};
ghost use Rattle.nd_lines.specs.Counts.{one_more};
ghost use Rattle.nd_wire.specs.Wire.{after_call, all_faults};

use crate::wire::{Wire, WireFault};
use std::alloc::Allocator;

/// A wire that fails at one call, whose number is counted from 0, and carries all others by the wire inside.
#[derive(Drop)]
pub struct FailingWire<W> {
    wire: W,
    /// The number of calls before the one that fails; `None` once it failed.
    before: Option<u64>,
}

impl<W> FailingWire<W> {
    /// Returns a wire that fails at the call number `at`, which the wire inside never sees.
    pub fn new(wire: W, at: u64) -> Self
        ensures wire { result.wire ≡ wire }
        ensures before { result.before ≡ Some at }
    {
        FailingWire {
            wire,
            before: Some(at),
        }
    }
}

impl<W: Wire> Wire for FailingWire<W> {
    ghost arrives = { W.arrives };

    ghost failed = { λ w. all_faults (W.failed w.wire) w.before };

    // The clauses of `Wire::carry`, which call fails by itself, and that any other fault is one of the wire inside.
    fn carry<A: Allocator>(
        &mut self,
        to: usize,
        frame: &[u8],
        into: &mut Vec<u8, A>,
    ) -> Result<(), WireFault>
        requires empty { into.old.items ≡ [] }
        requires room { length frame.now ≤ vec_capacity into.old }
        ensures arrives { OnOk result (W.arrives to frame.now into.new.items) }
        ensures length { OnOk result (length into.new.items ≤ length frame.now) }
        ensures fault { OnErr result (all_faults (W.failed self.new.wire) self.new.before ≡ one_more (all_faults (W.failed self.old.wire) self.old.before)) }
        ensures no_fault { OnOk result (all_faults (W.failed self.new.wire) self.new.before ≡ all_faults (W.failed self.old.wire) self.old.before) }
        ensures counted { self.new.before ≡ after_call self.old.before }
        ensures fails { self.old.before ≡ Some 0 → IsErr result }
        ensures untouched { self.old.before ≡ Some 0 → self.new.wire ≡ self.old.wire }
        ensures else_inside { self.old.before ≢ Some 0 → OnErr result (W.failed self.new.wire ≡ one_more (W.failed self.old.wire)) }
    {
        match self.before {
            Some(0) => {
                self.before = None;
                return Err(WireFault);
            }
            Some(calls) => self.before = Some(calls - 1),
            None => {}
        }
        self.wire.carry(to, frame, into)
    }

    fn failures(&self) -> u64 {
        let inside = self.wire.failures();
        match self.before {
            Some(_) => inside,
            None => inside.saturating_add(1),
        }
    }
}
