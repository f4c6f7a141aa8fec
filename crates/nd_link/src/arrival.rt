//! A node of a link receives an event. The definitions are in `specs/Arrival.antt`.

ghost use Rattle.std.specs.Prelude.{◌≡◌, ◌≢◌, ◌<◌, ◌≤◌, ℕ, IsOk, OnErr, OnOk, Option, vec_capacity, vec_len};
ghost use Rattle.nd_table.specs.Moment.{IsMoment};
ghost use Rattle.nd_node.specs.Event.{request_of};
ghost use Rattle.nd_link_log.specs.Log.{Log};
ghost use Rattle.nd_link.specs.Arrival.{Arrives, IsRefused, reached};
ghost use Rattle.nd_link.specs.Due.{AreSettled};
ghost use Rattle.nd_link.specs.Link.{Stands};
ghost use Rattle.nd_link.specs.Time.{Leads};
ghost use Rattle.nd_link.specs.Told.{refusal_of};

use crate::frames::keep_frames;
use crate::link::{Link, MAX_NODES};
use crate::passing::pass_others;
use crate::refusal::Refusal;
use crate::told::{Told, tell, tell_refused};
use nd_addr::{Mac, Role};
use nd_node::{Node, Request};
use nd_out::Reports;
use rand_core::Rng;
use std::alloc::{AllocError, Allocator};

impl<W, R: Rng + Drop, A: Allocator + Copy> Link<W, R, A> {
    /// Lets time pass up to `now`, in milliseconds, at all nodes. It takes no memory.
    pub(crate) fn reach(&mut self, now: u64)
        requires moment { IsMoment now }
        requires settled { AreSettled now self.old.nodes.items }
        requires in_time { self.old.last ≤ now }
        ensures reaches { (log : Log) → Stands R.stream self.old log → Stands R.stream self.new (reached now log) }
        ensures count { vec_len self.new.nodes ≡ vec_len self.old.nodes }
        ensures wire { self.new.wire ≡ self.old.wire }
        ensures spent { self.new.spent ≡ self.old.spent }
    {
        let none = self.nodes.len();
        pass_others(&mut self.nodes, now, none);
        self.last = now;
    }

    /// Refuses an event, and reports why. Returns an error if out of memory; nothing is reported then.
    pub(crate) fn refuse(
        &mut self,
        now: u64,
        why: Refusal,
        told: &mut Vec<Told<A>, A>,
    ) -> Result<(), AllocError>
        requires moment { IsMoment now }
        requires settled { AreSettled now self.old.nodes.items }
        requires in_time { self.old.last ≤ now }
        requires not_late { (last : ℕ) → why ≢ Refusal.TooLate last }
        ensures leads { OnOk result (Leads R.stream self.old self.new told.old.items told.new.items (IsRefused now (refusal_of why))) }
        ensures told { OnErr result (told.new.items ≡ told.old.items) }
        ensures ready { vec_len told.old < vec_capacity told.old → IsOk result }
        ensures wire { self.new.wire ≡ self.old.wire }
        ensures spent { self.new.spent ≡ self.old.spent }
    {
        self.reach(now);
        tell_refused(told, now, why)
    }

    /// Passes an event to the node at `place`. Returns an error if out of memory; nothing is reported then.
    pub(crate) fn arrive(
        &mut self,
        now: u64,
        place: usize,
        event: &Request<A>,
        told: &mut Vec<Told<A>, A>,
    ) -> Result<(), AllocError>
        requires moment { IsMoment now }
        requires settled { AreSettled now self.old.nodes.items }
        requires in_time { self.old.last ≤ now }
        requires there { place < vec_len self.old.nodes }
        ensures leads { OnOk result ((carried : Option ℕ) → Leads R.stream self.old self.new told.old.items told.new.items (Arrives now place (request_of event.now) carried)) }
        ensures told { OnErr result (told.new.items ≡ told.old.items) }
        ensures wire { self.new.wire ≡ self.old.wire }
        ensures spent { self.new.spent ≡ self.old.spent }
    {
        pass_others(&mut self.nodes, now, place);
        let mut outs = Reports::new(self.alloc)?;
        let node = &mut self.nodes[place];
        node.add_request(now, event, &mut outs)?;
        let outs = outs.into_list()?;
        keep_frames(&mut self.frames, self.alloc, place, &outs)?;
        tell(told, place, outs)?;
        self.last = now;
        Ok(())
    }
}
