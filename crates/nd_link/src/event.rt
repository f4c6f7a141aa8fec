//! Events of a link. The definitions are in `specs/Event.antt`.

ghost use Rattle.std.specs.Prelude.{◌≡◌, ◌≢◌, ◌≤◌, ◌<◌, ◌-◌, Err, IsErrOf, IsOk, OnErr, OnOk, false, true, vec_capacity, vec_len};
ghost use Rattle.nd_addr.specs.Bytes.{IsBytes};
ghost use Rattle.nd_table.specs.Moment.{IsMoment};
ghost use Rattle.nd_lines.specs.Counts.{one_more};
ghost use Rattle.nd_wire.specs.Wire.{IsFaithful};
ghost use Rattle.nd_link_log.specs.Log.{Log};
ghost use Rattle.nd_link_log.specs.Bytes.{IsOfBytes};
ghost use Rattle.nd_link.specs.Arrival.{Happens};
ghost use Rattle.nd_link.specs.Due.{AreSettled};
ghost use Rattle.nd_link.specs.Event.{AreEarly, link_event, link_events};
ghost use Rattle.nd_link.specs.Holder.{KeepsOneHolder, KeepsOneHolderWithLosses};
ghost use Rattle.nd_link.specs.Link.{Stands};
ghost use Rattle.nd_link.specs.Memory.{AsksForNone};
ghost use Rattle.nd_link.specs.Run.{FollowsBy, IsDelivery, RunsBy, RunsInPart, RunsUpTo};
ghost use Rattle.nd_link.specs.Time.{Leads, Onward, Passes, TellsOf};

use crate::fault::LinkFault;
use crate::link::Link;
use crate::refusal::Refusal;
use crate::told::{Told, tell_refused};
use nd_addr::{Mac, Role};
use nd_node::{Event, Request};
use nd_slaac::Transmits;
use nd_wire::Wire;
use rand_core::Rng;
use std::alloc::Allocator;

/// What a link receives from outside.
#[derive(Drop)]
pub enum LinkEvent<R, A: Allocator> {
    /// Time passes.
    Passes,
    /// Another node starts, with the usual limits: its role, its link-layer address, the number of solicitations that it sends for each of its
    /// addresses, and the generator of its random words.
    Starts(Role, Mac, Transmits, R),
    /// A node receives an event, or one of its tables is shown: the number of the node, and what is asked of it.
    Comes(u64, Request<A>),
    /// A frame is carried to a node: the number of the node, and that of the frame.
    Delivers(u64, u64),
}

/// Gives as a clause what the types of an event's parts say: addresses and frames are of bytes, a node sends at least one solicitation for an
/// address, and an address that is given by hand is one that an interface may have.
fn known<R: Rng + Drop, A: Allocator>(event: &LinkEvent<R, A>)
    ensures { IsOfBytes (link_event R.stream event.now) }
{
    match event {
        LinkEvent::Starts(_, mac, transmits, _) => {
            mac.as_bytes();
            transmits.number();
        }
        LinkEvent::Comes(_, Request::Event(Event::Receives(frame))) => known_frame(frame),
        LinkEvent::Comes(_, Request::Event(Event::Sets(own))) => {
            own.addr();
        }
        LinkEvent::Passes | LinkEvent::Comes(..) | LinkEvent::Delivers(..) => {}
    }
}

/// Says the same of the frame of an event.
fn known_frame(frame: &[u8])
    ensures { IsBytes frame.now }
{}

impl<W: Wire, R: Rng + Drop, A: Allocator + Copy> Link<W, R, A> {
    /// Passes an event to the link at `now`, in milliseconds. The link first does all that is due up to `now`, this millisecond included, beginning
    /// with the node of the least number if several have something due at the same moment; then it does what the event adds. An event earlier than
    /// the link's last moment is only refused. What happened is appended to `told`.
    ///
    /// Out of memory: the link is closed. If its wire fails, all that was due is done, and nothing else.
    pub fn event(
        &mut self,
        now: u64,
        event: LinkEvent<R, A>,
        told: &mut Vec<Told<A>, A>,
    ) -> Result<(), LinkFault>
        requires { IsMoment now }
        ensures follows { IsFaithful W.arrives → OnOk result (Leads R.stream self.old self.new told.old.items told.new.items (FollowsBy now (link_event R.stream event))) }
        ensures told { OnErr result (TellsOf R.stream self.old told.old.items told.new.items (Onward now)) }
        ensures passes { IsErrOf result LinkFault.Wire → Leads R.stream self.old self.new told.old.items told.new.items (Passes now) }
        ensures wire_failed { IsErrOf result LinkFault.Wire → W.failed self.new.wire ≡ one_more (W.failed self.old.wire) }
        ensures wire_carried { result ≢ Err LinkFault.Wire → W.failed self.new.wire ≡ W.failed self.old.wire }
        ensures spent { IsErrOf result LinkFault.Memory → self.new.spent ≡ true }
        ensures stays_spent { self.old.spent ≡ true → result ≡ Err LinkFault.Memory }
        ensures unspent { OnOk result (self.new.spent ≡ self.old.spent) }
        ensures unspent_by_wire { IsErrOf result LinkFault.Wire → self.new.spent ≡ self.old.spent }
        ensures stays_silent { self.old.spent ≡ true → told.new ≡ told.old }
        ensures delivery { IsErrOf result LinkFault.Wire → IsDelivery (link_event R.stream event) }
        ensures bytes { IsOfBytes (link_event R.stream event) }

        // An event that is too late is refused even if no memory is left, if the list has room for the refusal.
        ensures late { self.old.spent ≡ false → now < self.old.last → vec_len told.old < vec_capacity told.old → IsOk result }

        // If nothing is due up to `now`, time that passes and an event that the link refuses ask for no memory.
        ensures quiet { (log : Log) → Stands R.stream self.old log → self.old.spent ≡ false → self.old.last ≤ now → AreSettled now self.old.nodes.items → AsksForNone now log (link_event R.stream event) (vec_capacity told.old - vec_len told.old) → IsOk result }
    {
        known(&event);
        if self.spent {
            return Err(LinkFault::Memory);
        }
        let answer = self.answer(now, event, told);
        if answer == Err(LinkFault::Memory) {
            self.spent = true;
        }
        answer
    }

    /// Runs events one after the other, each at its moment, in milliseconds, and reports what happens. It stops at the first fault: the events
    /// before it have run, and possibly part of what is due before the next one, and all of that is reported. Out of memory: the link is closed,
    /// and every later call returns that error, even one without events. If the wire fails, all that was due up to that event is done, and the link
    /// stays in use.
    ///
    /// If there was no fault since the link was made, and its log is timely, no address is preferred or deprecated at two nodes at any moment up to
    /// the last one (RFC 4862, section 5.4). The same holds if frames are lost, provided that in each attempt for an address one solicitation
    /// arrives in time at each other node, and the answers to that solicitation arrive in time.
    pub fn run(
        &mut self,
        events: Vec<(u64, LinkEvent<R, A>), A>,
        told: &mut Vec<Told<A>, A>,
    ) -> Result<(), LinkFault>
        requires { AreEarly events.items }
        ensures runs { IsFaithful W.arrives → OnOk result (Leads R.stream self.old self.new told.old.items told.new.items (RunsBy (link_events R.stream events.items))) }
        ensures one_holder { IsFaithful W.arrives → OnOk result (KeepsOneHolder R.stream self.old self.new (link_events R.stream events.items)) }
        ensures one_holder_where_frames_are_lost { IsFaithful W.arrives → OnOk result (KeepsOneHolderWithLosses R.stream self.old self.new (link_events R.stream events.items)) }
        ensures in_part { IsFaithful W.arrives → OnErr result (TellsOf R.stream self.old told.old.items told.new.items (RunsInPart (link_events R.stream events.items))) }
        ensures passes { IsFaithful W.arrives → IsErrOf result LinkFault.Wire → Leads R.stream self.old self.new told.old.items told.new.items (RunsUpTo (link_events R.stream events.items)) }
        ensures wire_failed { IsErrOf result LinkFault.Wire → W.failed self.new.wire ≡ one_more (W.failed self.old.wire) }
        ensures wire_carried { result ≢ Err LinkFault.Wire → W.failed self.new.wire ≡ W.failed self.old.wire }
        ensures spent { IsErrOf result LinkFault.Memory → self.new.spent ≡ true }
        ensures stays_spent { self.old.spent ≡ true → result ≡ Err LinkFault.Memory }
        ensures unspent { OnOk result (self.new.spent ≡ self.old.spent) }
        ensures unspent_by_wire { IsErrOf result LinkFault.Wire → self.new.spent ≡ self.old.spent }
        ensures stays_silent { self.old.spent ≡ true → told.new ≡ told.old }
    {
        if self.spent {
            return Err(LinkFault::Memory);
        }
        for (at, event) in events {
            self.event(at, event, told)?;
        }
        Ok(())
    }

    /// Does the same, but doesn't close the link if out of memory.
    fn answer(
        &mut self,
        now: u64,
        event: LinkEvent<R, A>,
        told: &mut Vec<Told<A>, A>,
    ) -> Result<(), LinkFault>
        requires { IsMoment now }
        ensures follows { IsFaithful W.arrives → OnOk result (Leads R.stream self.old self.new told.old.items told.new.items (FollowsBy now (link_event R.stream event))) }
        ensures told { OnErr result (TellsOf R.stream self.old told.old.items told.new.items (Onward now)) }
        ensures passes { IsErrOf result LinkFault.Wire → Leads R.stream self.old self.new told.old.items told.new.items (Passes now) }
        ensures wire_failed { IsErrOf result LinkFault.Wire → W.failed self.new.wire ≡ one_more (W.failed self.old.wire) }
        ensures wire_carried { result ≢ Err LinkFault.Wire → W.failed self.new.wire ≡ W.failed self.old.wire }
        ensures spent { self.new.spent ≡ self.old.spent }
        ensures delivery { IsErrOf result LinkFault.Wire → IsDelivery (link_event R.stream event) }
        ensures late { now < self.old.last → vec_len told.old < vec_capacity told.old → IsOk result }
        ensures quiet { (log : Log) → Stands R.stream self.old log → self.old.last ≤ now → AreSettled now self.old.nodes.items → AsksForNone now log (link_event R.stream event) (vec_capacity told.old - vec_len told.old) → IsOk result }
    {
        if now < self.last {
            tell_refused(told, now, Refusal::TooLate(self.last))?;
            return Ok(());
        }
        self.settle(now, told)?;
        self.add(now, event, told)
    }

    /// Does what an event adds, once all that is due up to `now` is done. If it returns an error, nothing is reported.
    fn add(
        &mut self,
        now: u64,
        event: LinkEvent<R, A>,
        told: &mut Vec<Told<A>, A>,
    ) -> Result<(), LinkFault>
        requires moment { IsMoment now }
        requires settled { AreSettled now self.old.nodes.items }
        requires in_time { self.old.last ≤ now }
        ensures leads { IsFaithful W.arrives → OnOk result (Leads R.stream self.old self.new told.old.items told.new.items (Happens now (link_event R.stream event))) }
        ensures told { OnErr result (told.new.items ≡ told.old.items) }
        ensures stands { IsErrOf result LinkFault.Wire → (log : Log) → Stands R.stream self.old log → Stands R.stream self.new log }
        ensures fault { IsErrOf result LinkFault.Wire → W.failed self.new.wire ≡ one_more (W.failed self.old.wire) }
        ensures no_fault { result ≢ Err LinkFault.Wire → W.failed self.new.wire ≡ W.failed self.old.wire }
        ensures spent { self.new.spent ≡ self.old.spent }
        ensures delivery { IsErrOf result LinkFault.Wire → IsDelivery (link_event R.stream event) }
        ensures quiet { (log : Log) → Stands R.stream self.old log → AsksForNone now log (link_event R.stream event) (vec_capacity told.old - vec_len told.old) → IsOk result }
    {
        match event {
            LinkEvent::Passes => {
                self.reach(now);
                Ok(())
            }
            LinkEvent::Starts(role, mac, transmits, generator) => {
                Ok(self.start(now, role, mac, transmits, generator, told)?)
            }
            LinkEvent::Comes(node, event) => Ok(self.come(now, node, &event, told)?),
            LinkEvent::Delivers(node, number) => self.deliver(now, node, number, told),
        }
    }
}
