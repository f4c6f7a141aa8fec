//! Where packets go of a caller that keeps them (RFC 4861, sections 5.2, 7.2.2 and 7.3.3). The definitions are in `specs/Resolve.antt`.

ghost use Rattle.std.specs.Prelude.{◌≡◌, ◌+◌, ◌<◌, ◌≤◌, ◌-◌, ◌⊎◌, true, IfOk, IfSome, OnOk, MatchBool, MatchResult, None, Some};
ghost use Rattle.nd_addr.specs.Number.{number_of};
ghost use Rattle.nd_table.specs.Moment.{IsMoment};
ghost use Rattle.nd_neighbour.specs.declared.shown.Reachability.TheVariants.{Delay};
ghost use Rattle.nd_chronicle.specs.Happening.{Chronicle};
ghost use Rattle.nd_chronicle.specs.Start.{Start};
ghost use Rattle.nd_node.specs.Node.{last_of};
ghost use Rattle.nd_node.specs.NodeKept.{Stands, next_of};
ghost use Rattle.nd_node.specs.Path.{path_in};
ghost use Rattle.nd_node.specs.PathKept.{left_kept, path_kept, towards};
ghost use Rattle.nd_node.specs.ResolveKept.{IsWay};
ghost use Rattle.nd_node.specs.Time.{Onward, Passes};
ghost use Rattle.nd_random.specs.Source.{stream_of_source};
ghost use Rattle.nd_session.specs.Advancing.{AdvancesOnErr};
ghost use Rattle.nd_session.specs.Event.{LedBy};
ghost use Rattle.nd_session.specs.Leases.{KeepsLeases};
ghost use Rattle.nd_session.specs.Ready.{IsReady, KeepsReady};
ghost use Rattle.nd_session.specs.Resolve.{AnsweredAtOnce, AnsweredBy, GoesThere, HasLease, Resolves, resolution_in};
ghost use Rattle.nd_session.specs.Slots.{IsRecalled};

use crate::paths::LeasedPath;
use crate::session::Session;
use nd_addr::{Addr, Mac};
use nd_neighbour::Reachability;
use nd_nexthop::Hop;
use nd_node::{Path, Resolution, TimedPath};
use nd_out::{Refusal, Way};
use std::alloc::AllocError;

/// The answer to the question where packets to a destination go.
#[derive(Clone, Copy, Debug, PartialEq, Eq)]
pub enum PathAnswer {
    /// The moment of the question was too early: time had passed up to this one, in milliseconds.
    Past(u64),
    /// The question is refused.
    Refused(Refusal),
    /// They go there.
    Path {
        /// The next hop and its link-layer address. The caller waits for an address that isn't known.
        way: Way,
        /// The state of the neighbour that they go to (RFC 4861, section 7.3.2), if it has an entry. A multicast destination has none.
        state: Option<Reachability>,
        /// The end of the lease, in milliseconds: before it packets may be sent to that link-layer address without a question, as long as no event
        /// happens. It is the moment of the question where there is no lease.
        until: u64,
    },
}

/// Returns the address and the link-layer address that packets go to by the path of a destination, if it has a lease at `now`, in milliseconds.
fn leased_to(now: u64, destination: Addr, path: Path) -> Option<(Addr, Mac)>
    ensures { IfSome result (λ to. (now < path.until) × (towards (path_in path).next destination ≡ number_of to.0.0) × ((path_in path).mac ≡ Some (number_of to.1.0))) }
{
    if path.until <= now {
        return None;
    }
    let mac = path.mac?;
    match path.hop {
        Hop::Direct => Some((destination, mac)),
        Hop::Via(router) => Some((router, mac)),
        Hop::NoRoute => None,
    }
}

/// Returns true if a neighbour is in DELAY.
fn is_delayed(state: Option<Reachability>) -> bool
    ensures { MatchBool result (state ≡ Some Delay) (state ≡ Some Delay → ⊥) }
{
    match state {
        Some(Reachability::Delay) => true,
        None
        | Some(
            Reachability::Incomplete
            | Reachability::Reachable
            | Reachability::Stale
            | Reachability::Probe,
        ) => false,
    }
}

/// Returns the moment at which a time is over of which this is left at `now`, all in milliseconds: 0 if none is. Returns `None` if no number says it.
fn end_of(now: u64, left: Option<u64>) -> Option<u64>
    ensures none { left ≡ None → result ≡ Some 0 }
    ensures some { IfSome left (λ time. IfSome result (λ end. end ≡ now + time)) }
{
    match left {
        Some(left) => now.checked_add(left),
        None => Some(0),
    }
}

impl Session {
    /// Returns true if the neighbour `to`, to which packets to a destination go at `now`, in milliseconds, is in the same state up to the end of the lease of
    /// the path. DELAY ends by itself.
    fn is_steady(&self, now: u64, destination: Addr, to: Addr, path: Path) -> bool
        requires path { path_in path ≡ path_kept self.now.node now destination }
        requires in_lease { now < path.until }
        requires to_is { towards (path_in path).next destination ≡ number_of to.0 }
        ensures { result ≡ true → ((path_kept self.now.node (path.until - 1) destination).state ≡ path.state) ⊎ (path.state ≡ Some Delay → ⊥) }
    {
        if !is_delayed(path.state) {
            return true;
        }
        is_delayed(self.node.neighbour_state(path.until - 1, to))
    }

    /// Remembers the path of a destination at `now`, in milliseconds, up to which nothing is due, if it has a lease, and returns it as `Paths::recall` does.
    fn remember(&mut self, now: u64, destination: Addr, timed: TimedPath) -> Option<LeasedPath>
        requires settled { now < next_of self.old.node }
        requires path { path_in timed.path ≡ path_kept self.old.node now destination }
        requires left { timed.reachable_left ≡ left_kept self.old.node now destination }
        ensures node { self.new.node ≡ self.old.node }
        ensures reports { self.new.reports.items ≡ self.old.reports.items }
        ensures room { self.new.room ≡ self.old.room }
        ensures version { self.new.paths.leases ≡ self.old.paths.leases }
        ensures recalled { IfSome result (λ path. IsRecalled self.new.paths now destination path) }
    {
        let path = timed.path;
        let Some((to, mac)) = leased_to(now, destination, path) else {
            return None;
        };
        let Some(reachable_until) = end_of(now, timed.reachable_left) else {
            return None;
        };
        if !self.is_steady(now, destination, to, path) {
            return None;
        }
        self.paths.remember(LeasedPath {
            destination,
            to,
            mac,
            state: path.state,
            reachable_until,
            from: now,
            until: path.until,
            version: 0,
        })
    }

    /// Returns the answer with the state of the neighbour and the lease, and remembers the path. If something is due at `now`, in milliseconds, already,
    /// there is no lease.
    fn with_lease(&mut self, now: u64, destination: Addr, resolution: Resolution) -> PathAnswer
        ensures answer { resolution_in result ≡ Some resolution }
        ensures lease { HasLease now destination result self.new }
        ensures goes { IsWay self.old.node now destination resolution → GoesThere now destination result self.new.node }
        ensures node { self.new.node ≡ self.old.node }
        ensures reports { self.new.reports.items ≡ self.old.reports.items }
        ensures room { self.new.room ≡ self.old.room }
        ensures version { self.new.paths.leases ≡ self.old.paths.leases }
    {
        match resolution {
            Resolution::Refused(refusal) => PathAnswer::Refused(refusal),
            Resolution::Path(way) => {
                let Some(timed) = self.node.timed_path(now, destination) else {
                    return PathAnswer::Path {
                        way,
                        state: None,
                        until: now,
                    };
                };
                let _remembered = self.remember(now, destination, timed);
                PathAnswer::Path {
                    way,
                    state: timed.path.state,
                    until: timed.path.until,
                }
            }
        }
    }

    /// Answers at `now`, in milliseconds, from what is remembered of the destination: within the lease of its path, a use of the neighbour changes nothing.
    /// It takes no memory.
    fn answer_within(&mut self, now: u64, destination: Addr, path: LeasedPath) -> PathAnswer
        requires recalled { IsRecalled self.old.paths now destination path }
        ensures answered { AnsweredAtOnce now destination result self.old self.new }
        ensures clock { self.new.node ≡ record self.old.node { last = now } }
        ensures room { self.new.room ≡ self.old.room }
        ensures version { self.new.paths.leases ≡ self.old.paths.leases }
    {
        match self.node.answer_leased(now, destination, path.to, path.mac) {
            Resolution::Refused(refusal) => PathAnswer::Refused(refusal),
            Resolution::Path(way) => PathAnswer::Path {
                way,
                state: path.state,
                until: path.until,
            },
        }
    }

    /// Does what is due up to `now`, in milliseconds, as `settle` does, and returns the path of a destination then, and for how long its neighbour still is
    /// REACHABLE.
    fn settled_path(&mut self, now: u64, destination: Addr) -> Result<TimedPath, AllocError>
        requires { IsMoment now }
        ensures passes { OnOk result (LedBy self.old self.new (Passes now)) }
        ensures settled { OnOk result (now < next_of self.new.node) }
        ensures value { IfOk result (λ timed. path_in timed.path ≡ path_kept self.new.node now destination) }
        ensures left { IfOk result (λ timed. timed.reachable_left ≡ left_kept self.new.node now destination) }
        ensures onward { LedBy self.old self.new (Onward now) }
        ensures ready { IsReady self.old → IsReady self.new }
        ensures leases { KeepsLeases self.old self.new }
        ensures advances { AdvancesOnErr now result self.old self.new }
    {
        if let Some(timed) = self.node.timed_path(now, destination) {
            return Ok(timed);
        }
        self.settle(now)?;
        match self.node.timed_path(now, destination) {
            Some(timed) => Ok(timed),
            None => unreachable!(),
        }
    }

    /// Does what is due up to `now`, in milliseconds, and answers by the node; the path is remembered if it has a lease. Otherwise as `resolve`.
    #[inline(never)]
    fn look_up(&mut self, now: u64, destination: Addr) -> Result<PathAnswer, AllocError>
        requires moment { IsMoment now }
        requires in_time { last_of self.old.node ≤ now }
        ensures resolved { MatchResult result (λ answer. AnsweredBy now destination answer self.old self.new) (λ error. LedBy self.old self.new (Onward now)) }
        ensures ready { KeepsReady self.old self.new }
        ensures leases { KeepsLeases self.old self.new }
        ensures advances { AdvancesOnErr now result self.old self.new }
    {
        let timed = self.settled_path(now, destination)?;
        if let Some(path) = self.remember(now, destination, timed) {
            return Ok(self.answer_within(now, destination, path));
        }
        self.paths.forget();
        let resolution = self.node.answer_path(now, destination, &mut self.reports)?;
        Ok(self.with_lease(now, destination, resolution))
    }

    /// Does all that is due up to `now`, in milliseconds, its own millisecond included, and then answers where packets to `destination` go, for a caller
    /// that keeps them (RFC 4861, sections 5.2, 7.2.2 and 7.3.3). That is a use of the neighbour that they go to, and one whose link-layer address isn't
    /// known is solicited; the reports gain the frame, and `Out::Resolved` or `Out::Failed` later. The answer is returned, and not reported. A question of
    /// a past moment changes nothing. Within the lease of a path that was asked for, if nothing has happened since but other such questions, the answer is
    /// what is remembered.
    ///
    /// Returns an error if out of memory: a part of what is due may have been done and reported then, and the question has added nothing.
    pub fn resolve(&mut self, now: u64, destination: Addr) -> Result<PathAnswer, AllocError>
        requires { IsMoment now }
        ensures resolves { Resolves now destination result self.old self.new }
        ensures ready { KeepsReady self.old self.new }
        ensures leases { KeepsLeases self.old self.new }
        ensures advances { AdvancesOnErr now result self.old self.new }
    {
        if self.node.is_past(now) {
            return Ok(PathAnswer::Past(self.node.last_moment()));
        }
        if let Some(path) = self.paths.recall(now, destination) {
            return Ok(self.answer_within(now, destination, path));
        }
        self.look_up(now, destination)
    }
}
