//! A session: its start, its events, and its reports.

ghost use Rattle.std.specs.Prelude.{◌≡◌, ℕ, ◌<◌, ◌≤◌, ◌+◌, ◌↔◌, List, [], ◌∷◌, None, true, false, IfOk, IfSome, IsOk, IsSome, IsSomeAnd, IsTrue, OnOk, OnErr, drop, max, vec_capacity, option_copied, slice_get};
ghost use Rattle.nd_table.specs.Moment.{IsMoment};
ghost use Rattle.nd_addr.specs.Frame.{headers_length};
ghost use Rattle.nd_compose.specs.Frames.{longest_message};
ghost use Rattle.nd_compose.specs.Room.{HasRoomFor};
ghost use Rattle.nd_chronicle.specs.Event as events;
ghost use Rattle.nd_chronicle.specs.Happening.{Chronicle, Passed, Sent, last_moment};
ghost use Rattle.nd_chronicle.specs.Hearing.{IsHeard, Verdict};
ghost use Rattle.nd_chronicle.specs.History.{beginning};
ghost use Rattle.nd_chronicle.specs.Start.{Start};
ghost use Rattle.nd_out.specs.Out.{happening};
ghost use Rattle.nd_node.specs.Answer.{answer_of};
ghost use Rattle.nd_node.specs.Event.{event_of};
ghost use Rattle.nd_node.specs.EventKept.{AddsEvent};
ghost use Rattle.nd_node.specs.Frame.{Stays};
ghost use Rattle.nd_node.specs.Hearing.{LeavesTables};
ghost use Rattle.nd_node.specs.Node.{starting, last_of, with_policies};
ghost use Rattle.nd_node.specs.NodeKept.{Stands, next_of};
ghost use Rattle.nd_node.specs.Time.{Advances, IsInHand, Leads, Onward, Passes, longest_due};
ghost use Rattle.nd_steps.specs.Outputs.{frame_sent};
ghost use Rattle.nd_random.specs.Source.{stream_of_source};
ghost use Rattle.nd_session.specs.Paths.{AreRemembered};
ghost use Rattle.nd_session.specs.Reception.{answer_in, changes_tables};
ghost use Rattle.nd_session.specs.Settling.{done, leaves_paths};
ghost use Rattle.std.proofs.Props.{props};

use crate::paths::Paths;
use nd_addr::{Addr, Mac, Role};
use nd_compose::FrameRoom;
use nd_node::{Answer, Datagram, Event, Limits, Node, Policies, Reception};
use nd_out::{Out, Reports};
use nd_random::Source;
use nd_slaac::Transmits;
use std::alloc::{AllocError, Global};

/// A node, and its reports that the caller has not taken yet, the oldest first. Each moment is in milliseconds; the caller chooses
/// where they begin.
#[derive(Drop)]
pub struct Session {
    pub(crate) node: Node<Source, Global>,
    pub(crate) reports: Reports<Global>,
    /// The room in reserve: the next frame that is due is written into it. It is missing from then on until a frame's block is had back.
    pub(crate) room: Option<FrameRoom<Global>>,
    /// The paths that were asked for. They are forgotten where more of the node may have changed than the moment up to which time has passed.
    pub(crate) paths: Paths,
    ghost remembered: { AreRemembered paths node } by { Prim.hlevel props },
}

impl Session {
    ghost use Rattle.nd_session.specs.Advancing.{AdvancesOnErr};
    ghost use Rattle.nd_session.specs.Event.{LedBy, Takes};
    ghost use Rattle.nd_session.specs.Leases.{KeepsLeases};
    ghost use Rattle.nd_session.specs.Ready.{IsReady, KeepsReady};

    /// Starts a node at `start`, in milliseconds, whose random words come from `source`. It has no reports. `transmits` is the number of
    /// solicitations that it sends for each address, `limits` says how many rows each of its tables keeps at most, and `policies` what it does on a link
    /// that isn't trusted. Returns an error if out of memory.
    pub fn start(
        alloc: Global,
        role: Role,
        mac: Mac,
        start: u64,
        transmits: Transmits,
        limits: Limits,
        policies: Policies,
        source: Source,
    ) -> Result<Session, AllocError>
        requires { IsMoment start }
        ensures stands { IfOk result (λ s. let first = with_policies policies (starting start role mac transmits limits (stream_of_source source)) in Stands stream_of_source first s.node (beginning first)) }
        ensures empty { IfOk result (λ s. s.reports.items ≡ []) }
        ensures ready { IfOk result IsReady }
    {
        let reports = Reports::new(alloc)?;
        let paths = Paths::new(alloc, limits.destinations())?;
        match Node::new(alloc, role, mac, start, transmits, limits, source) {
            Ok(node) => {
                let node = node.with_policies(policies);
                let room = FrameRoom::with_room(alloc, node.longest_due())?;
                Ok(Session {
                    node,
                    reports,
                    room: Some(room),
                    paths,
                })
            }
            Err(_) => Err(AllocError),
        }
    }

    /// Has the version of all leases begin at `version`, before the first event. A caller that still keeps paths of an earlier node passes a number above that
    /// node's last version: then none of them is taken for one of this node.
    pub fn with_lease_version(mut self, version: u64) -> Session
        ensures version { result.paths.leases ≡ version }
        ensures node { result.node ≡ self.node }
        ensures reports { result.reports.items ≡ self.reports.items }
        ensures ready { IsReady self → IsReady result }
    {
        self.paths.begin_at(version);
        self
    }

    /// Returns the moment at which something is due next, in milliseconds.
    pub fn next_due(&self) -> u64
        ensures { result ≡ next_of self.now.node }
    {
        self.node.next_due()
    }

    /// Returns the version of all leases: each lease that was given at this version, and at this version alone, holds up to its end. It grows with each call
    /// after which one may not, and leaves it as it is where time alone has passed, and where a confirmation makes no lease shorter. At 2^64 - 1 it stays, and
    /// no lease holds.
    pub fn version(&self) -> u64
        ensures { result ≡ self.now.paths.leases }
    {
        self.paths.leases()
    }

    /// Returns the answer to an event at `now`, in milliseconds, if that is earlier than the moment up to which time has passed.
    fn past(&self, now: u64) -> Option<Answer>
        ensures past { now < last_of self.now.node → result ≡ Some (Answer.Past (last_of self.now.node)) }
        ensures in_time { last_of self.now.node ≤ now → result ≡ None }
    {
        if self.node.is_past(now) {
            return Some(Answer::Past(self.node.last_moment()));
        }
        None
    }

    /// Does all that is due up to `now`, in milliseconds, its own millisecond included, and then what the event asks for. The reports gain what the
    /// node sends and reports. Returns how the node took the event; one of a past moment changes nothing and is not reported.
    ///
    /// Returns an error if out of memory: a part of what is due may have been done and reported then, and the event has added nothing.
    #[inline(always)]
    pub fn event(&mut self, now: u64, event: &Event<Global>) -> Result<Answer, AllocError>
        requires { IsMoment now }
        ensures takes { Takes now (event_of event.now) result self.old self.new }
        ensures ready { KeepsReady self.old self.new }
        ensures leases { KeepsLeases self.old self.new }

        // If no report was left to take, what is due was done, or the first thing of it at least, even if no memory is left.
        ensures advances { AdvancesOnErr now result self.old self.new }
    {
        if let Some(past) = self.past(now) {
            return Ok(past);
        }
        self.settle(now)?;
        match event {
            Event::Passes => {
                self.node.pass(now);
                return Ok(Answer::Done);
            }
            Event::Confirms(neighbour) => {
                self.confirm(now, *neighbour);
                return Ok(Answer::Done);
            }
            _ => {}
        }
        self.paths.forget();
        self.node.add(now, event, &mut self.reports)
    }

    /// Does all that is due up to `now`, in milliseconds, its own millisecond included. Returns an error if out of memory: a part of it may have
    /// been done and reported then, and the first thing has been done if no report was left to take.
    #[inline(always)]
    pub fn settle(&mut self, now: u64) -> Result<(), AllocError>
        requires { IsMoment now }
        ensures passes { OnOk result (Leads stream_of_source self.old.node self.new.node self.old.reports.items self.new.reports.items (Passes now)) }
        ensures settled { OnOk result (now < next_of self.new.node) }
        ensures onward { Leads stream_of_source self.old.node self.new.node self.old.reports.items self.new.reports.items (Onward now) }

        // If no report was left to take, the first thing that is due was done, even if no memory is left.
        ensures advances { IsReady self.old → self.old.reports.items ≡ [] → OnErr result (LedBy self.old self.new (Advances now)) }
        ensures ready { IsReady self.old → IsReady self.new }
        ensures leases { KeepsLeases self.old self.new }
        ensures idle { now < next_of self.old.node → self.new ≡ self.old }
    {
        nd_chronicle::laws::idle_time_passes();
        let next = self.node.next_due();
        if next > now {
            return Ok(());
        }
        self.catch_up(now)
    }

    /// Does what is due up to `now`, in milliseconds, as `settle` does.
    #[cold]
    #[inline(never)]
    fn catch_up(&mut self, now: u64) -> Result<(), AllocError>
        requires { IsMoment now }
        ensures passes { OnOk result (LedBy self.old self.new (Passes now)) }
        ensures settled { OnOk result (now < next_of self.new.node) }
        ensures onward { LedBy self.old self.new (Onward now) }
        ensures advances { IsReady self.old → self.old.reports.items ≡ [] → OnErr result (LedBy self.old self.new (Advances now)) }
        ensures ready { IsReady self.old → IsReady self.new }
        ensures leases { KeepsLeases self.old self.new }
    {
        let _room = self.reports.is_empty();
        let settled = self.node.settle_in(now, &mut self.room, &mut self.reports);
        self.paths.forget_unless(leaves_paths(&settled));
        done(settled)
    }

    /// Receives a frame, from its Ethernet destination on (RFC 2464, section 3), at `now`, in milliseconds. The caller keeps the frame, which is
    /// not copied. Otherwise as `event`.
    #[inline(always)]
    pub fn receive(&mut self, now: u64, frame: &[u8]) -> Result<Answer, AllocError>
        requires { IsMoment now }
        ensures takes { Takes now (events.Receives frame.now) result self.old self.new }
        ensures ready { KeepsReady self.old self.new }
        ensures leases { KeepsLeases self.old self.new }

        // If no report was left to take, what is due was done, or the first thing of it at least, even if no memory is left.
        ensures advances { AdvancesOnErr now result self.old self.new }

        // A frame that is dropped, and one whose packet goes to the upper layer, end no lease.
        ensures idle { (verdict : Verdict) (start : Start) (c : Chronicle) → Stands stream_of_source start self.old.node c → last_moment start.at c ≤ now → now < next_of self.old.node → IsHeard start ((now, Passed) ∷ c) now frame.now verdict → LeavesTables verdict → OnOk result (self.new.paths.leases ≡ self.old.paths.leases) }
    {
        if let Some(past) = self.past(now) {
            return Ok(past);
        }
        self.settle(now)?;
        self.hear(now, frame)
    }

    /// Receives a frame at `now`, in milliseconds, as `receive` does, where all that is due up to `now` is done. Returns an error if out of memory; nothing has
    /// happened then.
    #[inline(always)]
    pub fn hear(&mut self, now: u64, frame: &[u8]) -> Result<Answer, AllocError>
        requires moment { IsMoment now }
        requires settled { now < next_of self.old.node }
        ensures adds { IfOk result (λ answer. AddsEvent stream_of_source self.old.node self.new.node self.old.reports.items self.new.reports.items now (events.Receives frame.now) (answer_of answer)) }
        ensures stays { OnErr result (Stays stream_of_source self.old.node self.new.node) }
        ensures told { OnErr result (self.new.reports.items ≡ self.old.reports.items) }
        ensures room { self.new.room ≡ self.old.room }
        ensures leases { KeepsLeases self.old self.new }
        ensures idle { (verdict : Verdict) (start : Start) (c : Chronicle) → Stands stream_of_source start self.old.node c → last_moment start.at c ≤ now → IsHeard start ((now, Passed) ∷ c) now frame.now verdict → LeavesTables verdict → OnOk result (self.new.paths.leases ≡ self.old.paths.leases) }
    {
        let heard = self.node.hear_frame(now, frame, &mut self.reports);
        self.paths.forget_where(changes_tables(&heard));
        answer_in(heard)
    }

    /// Sends a packet of the upper layer at `now`, in milliseconds (RFC 4861, section 5.2), without a copy of `payload`. Otherwise as `event`.
    #[inline(always)]
    pub fn send(
        &mut self,
        now: u64,
        source: Addr,
        destination: Addr,
        next_header: u8,
        payload: &[u8],
    ) -> Result<Answer, AllocError>
        requires { IsMoment now }
        ensures takes { Takes now (events.Sends source destination next_header payload.now) result self.old self.new }
        ensures ready { KeepsReady self.old self.new }
        ensures leases { KeepsLeases self.old self.new }

        // If no report was left to take, what is due was done, or the first thing of it at least, even if no memory is left.
        ensures advances { AdvancesOnErr now result self.old self.new }
    {
        if let Some(past) = self.past(now) {
            return Ok(past);
        }
        self.settle(now)?;
        self.paths.forget();
        let packet = Datagram {
            source,
            destination,
            next_header,
            payload,
        };
        self.node.send_packet(now, &packet, &mut self.reports)
    }

    /// Returns the oldest report that the caller has not taken yet, with its moment in milliseconds.
    pub fn oldest(&self) -> Option<&(u64, Out<Global>)>
        ensures { option_copied result ≡ slice_get self.now.reports.items 0 }
    {
        self.reports.oldest()
    }

    /// Removes the oldest report and returns it, with its moment in milliseconds. A frame that was written into the room in reserve takes
    /// it along, so another room is made before a frame is taken, if it is missing. Returns an error if out of memory; nothing has changed then.
    pub fn take(&mut self) -> Result<Option<(u64, Out<Global>)>, AllocError>
        ensures taken { IfOk result (λ report. report ≡ slice_get self.old.reports.items 0) }
        ensures rest { OnOk result (self.new.reports.items ≡ drop 1 self.old.reports.items) }
        ensures node { self.new.node ≡ self.old.node }
        ensures ready { OnOk result (IsReady self.old → IsReady self.new) }
        ensures leases { KeepsLeases self.old self.new }
        ensures same { OnErr result (self.new ≡ self.old) }

        // It succeeds if the room is there, and if the report is no frame.
        ensures in_hand { IsInHand self.old.node self.old.room → IsOk result }
        ensures other { IfSome (slice_get self.old.reports.items 0) (λ report. frame_sent (happening report.1) ≡ []) → IsOk result }
    {
        let Some((_, report)) = self.reports.oldest() else {
            return Ok(None);
        };
        if is_frame(report) {
            self.make_room()?;
            return Ok(self.reports.pop_oldest());
        }
        Ok(self.reports.pop_oldest())
    }

    /// Makes the room in reserve, if it is missing. Returns an error if out of memory; nothing has changed then.
    fn make_room(&mut self) -> Result<(), AllocError>
        ensures in_hand { OnOk result (IsInHand self.new.node self.new.room) }
        ensures node { self.new.node ≡ self.old.node }
        ensures reports { self.new.reports.items ≡ self.old.reports.items }
        ensures paths { self.new.paths ≡ self.old.paths }
        ensures same { OnErr result (self.new ≡ self.old) }
        ensures kept { IsInHand self.old.node self.old.room → IsOk result }
    {
        let longest = self.node.longest_due();
        if has_room_for(&self.room, longest) {
            return Ok(());
        }
        let alloc = *self.reports.allocator();
        self.room = Some(FrameRoom::with_room(alloc, longest)?);
        Ok(())
    }

    /// Removes the oldest report, once the caller has copied what it needs of it. If the room in reserve is missing, the block of a frame
    /// becomes it. It takes no memory. Returns false if the report was a frame whose block is too short for that; the frame that took the room along
    /// has a block that is long enough.
    #[inline(always)]
    pub fn remove_oldest(&mut self) -> bool
        ensures rest { self.new.reports.items ≡ drop 1 self.old.reports.items }
        ensures node { self.new.node ≡ self.old.node }
        ensures ready { result ≡ true → IsReady self.old → IsReady self.new }
        ensures leases { KeepsLeases self.old self.new }
        ensures kept { IsInHand self.old.node self.old.room → (result ≡ true) × (self.new.room ≡ self.old.room) }
        ensures other { IfSome (slice_get self.old.reports.items 0) (λ report. frame_sent (happening report.1) ≡ []) → result ≡ true }
    {
        let Some((_, report)) = self.reports.pop_oldest() else {
            return true;
        };
        match block_of(report) {
            Some(block) => self.refill(block),
            None => true,
        }
    }

    /// Makes the room in reserve of a frame's block, if it is missing. Returns false if the block is too short.
    #[inline(always)]
    fn refill(&mut self, block: Vec<u8, Global>) -> bool
        ensures node { self.new.node ≡ self.old.node }
        ensures reports { self.new.reports.items ≡ self.old.reports.items }
        ensures paths { self.new.paths ≡ self.old.paths }
        ensures in_hand { result ≡ true → IsInHand self.new.node self.new.room }
        ensures kept { IsInHand self.old.node self.old.room → (result ≡ true) × (self.new.room ≡ self.old.room) }
        ensures long { headers_length + max (longest_due self.old.node) longest_message ≤ vec_capacity block → result ≡ true }
    {
        let longest = self.node.longest_due();
        if has_room_for(&self.room, longest) {
            return true;
        }
        let Some(room) = FrameRoom::of_block(block, longest) else {
            return false;
        };
        self.room = Some(room);
        true
    }
}

/// Returns true if what was due has been done, and has left the paths.
fn leaves_paths(settled: &Result<bool, AllocError>) -> bool
    ensures { result ≡ leaves_paths settled.now }
{
    match settled {
        Ok(leaves) => *leaves,
        Err(_) => false,
    }
}

/// Returns whether what was due has been done.
fn done(settled: Result<bool, AllocError>) -> Result<(), AllocError>
    ensures { result ≡ done settled }
{
    match settled {
        Ok(_) => Ok(()),
        Err(error) => Err(error),
    }
}

/// Returns false if a frame has changed nothing of the node but the moment up to which time has passed.
fn changes_tables(heard: &Result<Reception, AllocError>) -> bool
    ensures { result ≡ changes_tables heard.now }
{
    match heard {
        Ok(reception) => reception.changes_tables,
        Err(_) => true,
    }
}

/// Returns how the node took the event.
fn answer_in(heard: Result<Reception, AllocError>) -> Result<Answer, AllocError>
    ensures { result ≡ answer_in heard }
{
    match heard {
        Ok(reception) => Ok(reception.answer),
        Err(error) => Err(error),
    }
}

/// Returns true if a report is a frame.
fn is_frame(report: &Out<Global>) -> bool
    ensures frame { result ≡ true → frame_sent (happening report.now) ≡ [] → ⊥ }
    ensures other { result ≡ false → (frame : List ℕ) → happening report.now ≡ Sent frame → ⊥ }
{
    matches!(report, Out::Frame(_))
}

/// Returns the block of a report that is a frame.
#[inline(always)]
fn block_of(report: Out<Global>) -> Option<Vec<u8, Global>>
    ensures frame { IsSome result → frame_sent (happening report) ≡ [] → ⊥ }
    ensures other { result ≡ None → (frame : List ℕ) → happening report ≡ Sent frame → ⊥ }
{
    match report {
        Out::Frame(frame) => Some(frame.into_frame()),
        _ => None,
    }
}

/// Returns true if there is room for a message of `length` bytes.
fn has_room_for(room: &Option<FrameRoom<Global>>, length: usize) -> bool
    requires { length ≤ 65535 }
    ensures { IsTrue result ↔ IsSomeAnd room.now (λ r. HasRoomFor r length) }
{
    match room {
        Some(room) => room.has_room_for(length),
        None => false,
    }
}
