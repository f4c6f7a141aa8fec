//! The clock of a node: the moment up to which time has passed, in milliseconds. It does not run by itself: each turn advances it, and each event
//! that is not too late. Once the node has started, only `advance_to` writes it.

ghost use Rattle.std.specs.Prelude.{◌≡◌, ◌++◌, [], ◌∷◌, ◌<◌, ◌≤◌, MatchBool, IsOk, OnOk, OnErr};
ghost use Rattle.nd_chronicle.specs.Happening.{Chronicle, Passed, last_moment};
ghost use Rattle.nd_chronicle.specs.Start.{Start};

use crate::node::Node;
use nd_out::{Out, Reports};
use rand_core::Rng;
use std::alloc::{AllocError, Allocator};

impl<R: Rng + Drop, A: Allocator + Clone> Node<R, A> {
    ghost use Rattle.nd_node.specs.NodeKept.{Stands, next_of};

    /// Advances the clock to `now`, in milliseconds. The caller does so once the event can no longer fail, since an event that fails leaves the
    /// clock; `now` is not earlier than the clock.
    pub(crate) fn advance_to(&mut self, now: u64)
        ensures { self.new ≡ record self.old { last = now } }
    {
        self.last = now;
    }

    /// Returns true if `now`, in milliseconds, is earlier than the moment up to which time has passed.
    pub fn is_past(&self, now: u64) -> bool
        ensures { MatchBool result (now < self.now.last) (self.now.last ≤ now) }
    {
        now < self.last
    }

    /// Lets time pass up to `now`, in milliseconds, before which nothing is due. If `now` is in the past, nothing changes. It takes no memory.
    pub fn pass(&mut self, now: u64)
        requires settled { now < next_of self.old }
        ensures passes { (start : Start) (c : Chronicle) → Stands R.stream start self.old c → last_moment start.at c ≤ now → Stands R.stream start self.new ((now, Passed) ∷ c) }
        ensures moves { self.old.last ≤ now → self.new ≡ record self.old { last = now } }
        ensures past { now ≤ self.old.last → self.new ≡ self.old }
    {
        if self.last < now {
            self.advance_to(now);
        }
    }

    /// Reports `out` at `now`, in milliseconds, and advances the clock: the whole of an event that changes no table. Returns an error if out of
    /// memory; nothing has changed then.
    pub(crate) fn report(
        &mut self,
        now: u64,
        out: Out<A>,
        outs: &mut Reports<A>,
    ) -> Result<(), AllocError>
        ensures clock { OnOk result (self.new ≡ record self.old { last = now }) }
        ensures items { OnOk result (outs.new.items ≡ outs.old.items ++ (now, out) ∷ []) }
        ensures keeps { OnErr result (self.new ≡ self.old) }
        ensures told { OnErr result (outs.new.items ≡ outs.old.items) }

        // If the list has room for the report it succeeds, even if no memory is left.
        ensures ready { 0 < outs.old.free → IsOk result }
    {
        outs.push((now, out))?;
        self.advance_to(now);
        Ok(())
    }
}
