//! Takes an upper layer's confirmation (RFC 4861, section 7.3.1). The definitions are in `specs/ReachabilityConfirmation.antt`.

ghost use Rattle.std.specs.Prelude.{◌≡◌, ◌+◌, ◌<◌, ◌≤◌, ℕ, List, Some, None, if◌then◌else◌, true};
ghost use Rattle.std.specs.Option.{option_map};
ghost use Rattle.nd_addr.specs.Number.{number_of};
ghost use Rattle.nd_table.specs.Moment.{IsMoment};
ghost use Rattle.nd_neighbour.specs.LeaseKept.{outlasts};
ghost use Rattle.nd_neighbour.specs.ShownKept.{seen};
ghost use Rattle.nd_neighbour.specs.TableKept.{entry_in};
ghost use Rattle.nd_nexthop.specs.NextHopKept.{hop_of};
ghost use Rattle.nd_chronicle.specs.Event as events;
ghost use Rattle.nd_chronicle.specs.Happening.{Chronicle, last_moment};
ghost use Rattle.nd_chronicle.specs.Start.{Start};
ghost use Rattle.nd_out.specs.declared.out.Out as told;
ghost use Rattle.nd_chronicle.specs.Answer as answers;
ghost use Rattle.nd_node.specs.EventKept.{AddsEvent};
ghost use Rattle.nd_node.specs.ReachabilityConfirmation.{IsConfirmed, moves, moves_by, neighbour_by};

use crate::node::Node;
use nd_addr::Addr;
use nd_neighbour::Reachability;
use nd_nexthop::Hop;
use nd_steps::times_in_force;
use rand_core::Rng;
use std::alloc::Allocator;

/// Returns true if a confirmation makes a neighbour in this state REACHABLE, or moves the end of that by `least` milliseconds or more, where it lasts for
/// `reachable` milliseconds. `left` is the time for which the neighbour still is REACHABLE, in milliseconds, if it is.
fn moves_by(reachable: u64, least: u64, state: Reachability, left: Option<u64>) -> bool
    ensures { result ≡ moves_by reachable least state left }
{
    match state {
        Reachability::Incomplete => false,
        Reachability::Reachable => match left {
            Some(left) => reachable.saturating_sub(left) >= least,
            None => true,
        },
        Reachability::Stale | Reachability::Delay | Reachability::Probe => true,
    }
}

/// Returns the neighbour that packets to `destination` go to by the next hop.
pub(crate) fn neighbour_by(hop: Hop, destination: Addr) -> Option<Addr>
    ensures { option_map (λ addr. number_of addr.0) result ≡ neighbour_by (hop_of hop) (number_of destination.0) }
{
    match hop {
        Hop::Direct => Some(destination),
        Hop::Via(router) => Some(router),
        Hop::NoRoute => None,
    }
}

impl<R: Rng + Drop, A: Allocator + Clone> Node<R, A> {
    ghost use Rattle.nd_node.specs.NodeKept.{Stands, next_of};
    ghost use Rattle.nd_node.specs.PathKept.{LeavesPaths, left_kept, path_kept, towards};

    /// Takes an upper layer's confirmation at `now`, in milliseconds, up to which nothing is due, that a neighbour is reachable (RFC 4861, section 7.3.1): the
    /// event `Confirms`. It takes no memory and reports nothing. Returns false if packets might have been sent to the neighbour without a question for longer:
    /// the time for which it is REACHABLE has become shorter.
    pub fn confirm(&mut self, now: u64, neighbour: Addr) -> bool
        requires moment { IsMoment now }
        requires settled { now < next_of self.old }
        ensures adds { (outs : List (ℕ × told.Out A)) → AddsEvent R.stream self.old self.new outs outs now (events.Confirms neighbour) answers.Done }
        ensures value { result ≡ outlasts (now + self.old.params.reachable_time) (entry_in (number_of neighbour.0) self.old.neighbours.entries) }
        ensures leaves { result ≡ true → LeavesPaths self.old self.new }
    {
        nd_neighbour::laws::none_overdue();
        let times = times_in_force(&self.params);
        let leaves = self.neighbours.confirmed(now, neighbour, times.reachable);
        self.advance_to(now);
        leaves
    }

    /// Returns true if a confirmation of a neighbour moves the end of its state REACHABLE by `least` milliseconds or more.
    fn moves(&self, now: u64, neighbour: Addr, least: u64) -> bool
        ensures { result ≡ moves self.now.params.reachable_time least (option_map (seen now) (entry_in (number_of neighbour.0) self.now.neighbours.entries)) }
    {
        match self.neighbours.entry(now, neighbour) {
            Some(entry) => moves_by(
                self.params.reachable_time(),
                least,
                entry.state,
                entry.reachable_left,
            ),
            None => false,
        }
    }

    /// Returns the neighbour that is confirmed by a sign that packets to `destination` arrive at `now`, in milliseconds, up to which nothing is due (RFC 4861,
    /// section 7.3.1): the one that they go to, if that makes it REACHABLE, or moves the end of that by `least` milliseconds or more. It takes no memory.
    pub fn confirmed_by(&self, now: u64, destination: Addr, least: u64) -> Option<Addr>
        requires settled { now < next_of self.now }
        ensures { (start : Start) (c : Chronicle) → Stands R.stream start self.now c → last_moment start.at c ≤ now → IsConfirmed start c now destination least (option_map (λ addr. number_of addr.0) result) }
    {
        let hop = self.next_hop_to(now, destination);
        if destination.is_multicast() {
            return None;
        }
        let neighbour = neighbour_by(hop, destination)?;
        if self.moves(now, neighbour, least) {
            return Some(neighbour);
        }
        None
    }

    /// Returns true if a sign that packets to `destination` arrive at `now`, in milliseconds, confirms the neighbour that they go to, as `confirmed_by` says,
    /// within the lease of their path. `state` is the state of that neighbour, and `left` the time for which it still is REACHABLE, in milliseconds, as
    /// `timed_path` says. It takes no memory.
    pub fn is_confirmed_in(
        &self,
        now: u64,
        destination: Addr,
        state: Option<Reachability>,
        left: Option<u64>,
        least: u64,
    ) -> bool
        requires in_lease { now < (path_kept self.now now destination).until }
        requires state_is { (path_kept self.now now destination).state ≡ state }
        requires left_is { left_kept self.now now destination ≡ left }
        ensures { (start : Start) (c : Chronicle) → Stands R.stream start self.now c → last_moment start.at c ≤ now
            → IsConfirmed start c now destination least (if result then Some (towards (path_kept self.now now destination).next destination) else None) }
    {
        if destination.is_multicast() {
            return false;
        }
        match state {
            Some(state) => moves_by(self.params.reachable_time(), least, state, left),
            None => false,
        }
    }
}
