//! A link does what is due at its nodes.

ghost use Rattle.std.specs.Prelude.{◌≡◌, ℕ, ◌^◌, ◌<◌, ◌≤◌, Ok, OnOk, OnErr};
ghost use Rattle.nd_table.specs.Moment.{IsMoment};
ghost use Rattle.nd_link.specs.Due.{AreSettled, IsFirst};
ghost use Rattle.nd_link.specs.Time.{Leads, TellsOf, Onward, Passes, Turns, turns_left};

use crate::due::first_due;
use crate::frames::keep_frames;
use crate::link::Link;
use crate::told::{Told, tell};
use nd_out::Reports;
use rand_core::Rng;
use std::alloc::{AllocError, Allocator};

impl<W, R: Rng + Drop, A: Allocator + Copy> Link<W, R, A> {
    /// Does all that is due up to `now`, in milliseconds, at one node after the other, and reports it. Returns an error if out of memory.
    pub(crate) fn settle(&mut self, now: u64, told: &mut Vec<Told<A>, A>) -> Result<(), AllocError>
        requires moment { IsMoment now }
        requires in_time { self.old.last ≤ now }
        ensures onward { OnOk result (Leads R.stream self.old self.new told.old.items told.new.items (Onward now)) }
        ensures passes { OnOk result (Leads R.stream self.old self.new told.old.items told.new.items (Passes now)) }
        ensures settled { OnOk result (AreSettled now self.new.nodes.items) }
        ensures in_time { OnOk result (self.new.last ≤ now) }
        ensures told { OnErr result (TellsOf R.stream self.old told.old.items told.new.items (Onward now)) }
        ensures idle { AreSettled now self.old.nodes.items → (result ≡ Ok tt) × (self.new ≡ self.old) × (told.new ≡ told.old) }
        ensures wire { self.new.wire ≡ self.old.wire }
        ensures spent { self.new.spent ≡ self.old.spent }
    {
        loop {
            let Some((place, due)) = first_due(&self.nodes) else {
                return Ok(());
            };
            if due > now {
                return Ok(());
            }
            self.turn(place, due, told)?;
        }
    }

    /// Does what is due first at the node that turns first. Returns an error if out of memory; nothing is reported then.
    fn turn(&mut self, place: usize, due: u64, told: &mut Vec<Told<A>, A>) -> Result<(), AllocError>
        requires moment { due < 2 ^ 62 }
        requires first { IsFirst R.stream self.old.nodes.items place due }
        ensures leads { OnOk result (Leads R.stream self.old self.new told.old.items told.new.items (Turns due)) }
        ensures fewer { OnOk result ((end : ℕ) → due ≤ end → turns_left end self.new.nodes.items < turns_left end self.old.nodes.items) }
        ensures told { OnErr result (told.new.items ≡ told.old.items) }
        ensures last { OnOk result (self.new.last ≡ due) }
        ensures wire { self.new.wire ≡ self.old.wire }
        ensures spent { self.new.spent ≡ self.old.spent }
    {
        let mut outs = Reports::new(self.alloc)?;
        let node = &mut self.nodes[place];
        node.turn(due, &mut outs)?;
        let outs = outs.into_list()?;
        keep_frames(&mut self.frames, self.alloc, place, &outs)?;
        tell(told, place, outs)?;
        self.last = due;
        Ok(())
    }
}
