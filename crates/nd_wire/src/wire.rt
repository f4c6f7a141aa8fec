//! The contract of every wire.

ghost use Rattle.std.specs.Prelude.{◌≡◌, ◌≤◌, [], ℕ, List, length, OnOk, OnErr, vec_capacity};
ghost use Rattle.nd_lines.specs.Counts.{one_more};

use std::alloc::Allocator;

/// A frame was not carried: a call of the system failed, or what arrived can't be what was sent. A wire counts the fault and doesn't say which it
/// was.
#[derive(Clone, Copy, Debug, PartialEq, Eq)]
pub struct WireFault;

/// A wire carries one frame after the other to nodes, and counts how often it failed (this project's own).
pub trait Wire {
    /// The bytes that may arrive if a frame is sent: first the number of the receiving node, then the frame, then what arrives.
    ghost arrives: { ℕ → List ℕ → List ℕ → Type 0 };

    /// The number of calls that failed so far, up to the greatest number of 64 bits.
    ghost failed: { Self → ℕ };

    /// Carries a frame to the node of a number. What arrives is put into an empty vector with room for the frame: it is no longer than the frame,
    /// so a wire asks for no memory that could be refused. Returns no other error than `WireFault`, which is counted.
    fn carry<A: Allocator>(
        &mut self,
        to: usize,
        frame: &[u8],
        into: &mut Vec<u8, A>,
    ) -> Result<(), WireFault>
        requires empty { into.old.items ≡ [] }
        requires room { length frame.now ≤ vec_capacity into.old }
        ensures arrives { OnOk result (arrives to frame.now into.new.items) }
        ensures length { OnOk result (length into.new.items ≤ length frame.now) }
        ensures fault { OnErr result (failed self.new ≡ one_more (failed self.old)) }
        ensures no_fault { OnOk result (failed self.new ≡ failed self.old) };

    /// Returns the number of calls that failed, up to the greatest number of 64 bits.
    fn failures(&self) -> u64
        ensures { result ≡ failed self.now };
}
