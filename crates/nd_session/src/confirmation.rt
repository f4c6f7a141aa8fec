//! A sign that packets to a destination arrive, which confirms the neighbour that they go to (RFC 4861, section 7.3.1). The definitions are in
//! `specs/Confirmation.antt`.

ghost use Rattle.std.specs.Prelude.{◌≡◌, ◌+◌, ◌<◌, ◌≤◌, ◌∷◌, ℕ, List, Ok, true};
ghost use Rattle.nd_addr.specs.Number.{number_of};
ghost use Rattle.nd_neighbour.specs.LeaseKept.{outlasts};
ghost use Rattle.nd_neighbour.specs.TableKept.{entry_in};
ghost use Rattle.std.specs.Global.{Global};
ghost use Rattle.nd_table.specs.Moment.{IsMoment};
ghost use Rattle.nd_chronicle.specs.Answer as answers;
ghost use Rattle.nd_chronicle.specs.Event as events;
ghost use Rattle.nd_chronicle.specs.Happening.{Chronicle, Passed, last_moment};
ghost use Rattle.nd_chronicle.specs.Start.{Start};
ghost use Rattle.nd_out.specs.declared.out.Out as told;
ghost use Rattle.nd_node.specs.EventKept.{AddsEvent};
ghost use Rattle.nd_node.specs.NodeKept.{Stands, next_of};
ghost use Rattle.nd_random.specs.Source.{stream_of_source};
ghost use Rattle.nd_session.specs.Advancing.{AdvancesOnErr};
ghost use Rattle.nd_session.specs.Confirmation.{Confirms};
ghost use Rattle.nd_session.specs.Leases.{KeepsLeases};
ghost use Rattle.nd_session.specs.Paths.{left_at};
ghost use Rattle.nd_session.specs.Ready.{IsReady, KeepsReady};

use crate::session::Session;
use nd_addr::Addr;
use std::alloc::AllocError;

/// How a session took a sign that packets to a destination arrive.
#[derive(Clone, Copy, Debug, PartialEq, Eq)]
pub enum Confirmation {
    /// The moment of the sign was too early: time had passed up to this one, in milliseconds.
    Past(u64),
    /// The neighbour that they go to is confirmed.
    Taken,
    /// Nothing is: no neighbour with a link-layer address is there, or its confirmation would have moved too little.
    Unneeded,
}

/// Returns what is left at `now` of a state that ends at `end`, if anything is; all are in milliseconds.
fn left_at(end: u64, now: u64) -> Option<u64>
    ensures { result ≡ left_at end now }
{
    if now < end {
        return Some(end - now);
    }
    None
}

impl Session {
    /// Takes the confirmation of a neighbour at `now`, in milliseconds, up to which nothing is due. It takes no memory. The ends of paths that are remembered
    /// may be later then.
    pub(crate) fn confirm(&mut self, now: u64, neighbour: Addr) -> Confirmation
        requires moment { IsMoment now }
        requires settled { now < next_of self.old.node }
        ensures taken { result ≡ Confirmation.Taken }
        ensures adds { (outs : List (ℕ × told.Out Global)) → AddsEvent stream_of_source self.old.node self.new.node outs outs now (events.Confirms neighbour) answers.Done }
        ensures reports { self.new.reports.items ≡ self.old.reports.items }
        ensures room { self.new.room ≡ self.old.room }
        ensures leases { KeepsLeases self.old self.new }
        ensures stays { outlasts (now + self.old.node.params.reachable_time) (entry_in (number_of neighbour.0) self.old.node.neighbours.entries) ≡ true → self.new.paths.leases ≡ self.old.paths.leases }
    {
        let holds = self.node.confirm(now, neighbour);
        self.paths.forget_unless(holds);
        Confirmation::Taken
    }

    /// Lets time pass up to `now`, in milliseconds, up to which nothing is due. It takes no memory.
    fn pass(&mut self, now: u64) -> Confirmation
        requires settled { now < next_of self.old.node }
        ensures unneeded { result ≡ Confirmation.Unneeded }
        ensures passes { (start : Start) (c : Chronicle) → Stands stream_of_source start self.old.node c → last_moment start.at c ≤ now → Stands stream_of_source start self.new.node ((now, Passed) ∷ c) }
        ensures reports { self.new.reports.items ≡ self.old.reports.items }
        ensures room { self.new.room ≡ self.old.room }
        ensures leases { KeepsLeases self.old self.new }
        ensures paths { self.new.paths ≡ self.old.paths }
    {
        self.node.pass(now);
        Confirmation::Unneeded
    }

    /// Does all that is due up to `now`, in milliseconds, its own millisecond included, and then takes a sign that packets to `destination` arrive (RFC 4861,
    /// section 7.3.1): it confirms the neighbour that they go to, if that makes it REACHABLE, or moves the end of that by `least` milliseconds or more. A sign
    /// of a past moment changes nothing.
    ///
    /// Returns an error if out of memory: a part of what is due may have been done and reported then, and the sign has added nothing.
    pub fn confirm_to(
        &mut self,
        now: u64,
        destination: Addr,
        least: u64,
    ) -> Result<Confirmation, AllocError>
        requires { IsMoment now }
        ensures confirms { Confirms now destination least result self.old self.new }
        ensures ready { KeepsReady self.old self.new }
        ensures leases { KeepsLeases self.old self.new }
        ensures advances { AdvancesOnErr now result self.old self.new }

        // Where nothing is due and nothing is confirmed, what is remembered stays, and so does each lease.
        ensures stays { now < next_of self.old.node → result ≡ Ok Confirmation.Unneeded → self.new.paths ≡ self.old.paths }
    {
        if self.node.is_past(now) {
            return Ok(Confirmation::Past(self.node.last_moment()));
        }
        if let Some(path) = self.paths.recall(now, destination) {
            let left = left_at(path.reachable_until, now);
            if self
                .node
                .is_confirmed_in(now, destination, path.state, left, least)
            {
                return Ok(self.confirm(now, path.to));
            }
            return Ok(self.pass(now));
        }
        self.settle(now)?;
        match self.node.confirmed_by(now, destination, least) {
            Some(neighbour) => Ok(self.confirm(now, neighbour)),
            None => Ok(self.pass(now)),
        }
    }
}
