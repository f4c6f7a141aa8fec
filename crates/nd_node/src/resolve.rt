//! Answers where packets to a destination go, for a caller that keeps them (RFC 4861, sections 5.2, 7.2.2 and 7.3.3). The definitions are in
//! `specs/Resolve.antt`.

ghost use Rattle.std.specs.Option.{option_map};
ghost use Rattle.std.specs.Prelude.{◌≡◌, ℕ, ◌+◌, ◌++◌, [], ◌∷◌, ◌<◌, ◌≤◌, IfOk, IfSome, IsOk, None, OnErr, OnOk, Some, is_some, true};
ghost use Rattle.nd_addr.specs.Number.{number_of};
ghost use Rattle.nd_table.specs.Moment.{IsMoment};
ghost use Rattle.nd_neighbour.specs.LeaseKept.{mac_at};
ghost use Rattle.nd_neighbour.specs.RoomKept.{has_room};
ghost use Rattle.nd_neighbour.specs.TableKept.{entry_in};
ghost use Rattle.nd_nexthop.specs.NextHop.{direct};
ghost use Rattle.nd_nexthop.specs.NextHopKept.{hop_of};
ghost use Rattle.nd_chronicle.specs.Event as events;
ghost use Rattle.nd_chronicle.specs.Event.{EventAdds};
ghost use Rattle.nd_neighbour.specs.View.{wanting_of};
ghost use Rattle.nd_neighbour.specs.Wanting.{mac_in};
ghost use Rattle.nd_chronicle.specs.Happening.{Chronicle, last_moment};
ghost use Rattle.nd_chronicle.specs.Resolve.{PathAdds, WantsIfPlaced};
ghost use Rattle.nd_chronicle.specs.Start.{Start};
ghost use Rattle.nd_out.specs.declared.out.Out.TheVariants as reports;
ghost use Rattle.nd_out.specs.declared.out.Way.TheVariants as ways;
ghost use Rattle.nd_steps.specs.NeighbourCache.{rows_of_wish};
ghost use Rattle.nd_node.specs.Answer.{answer_of};
ghost use Rattle.nd_node.specs.EventKept.{AddsEvent};
ghost use Rattle.nd_node.specs.Frame.{AddsAlone, Stays};
ghost use Rattle.nd_node.specs.Hearing.{Keeps};
ghost use Rattle.nd_node.specs.Memory.{AddsRefusal, IsAnsweredAtOnce, NeedsNoEntry};
ghost use Rattle.nd_node.specs.Resolve.{AddsPath, AddsWish, WishTold, answer_by, answer_row, with_answer};
ghost use Rattle.nd_node.specs.ResolveKept.{IsWay, LeadsTo};
ghost use Rattle.nd_node.specs.Time.{Leads};

use crate::answer::Answer;
use crate::node::Node;
use nd_addr::{Addr, Mac};
use nd_compose::FrameRoom;
use nd_neighbour::Want;
use nd_nexthop::Hop;
use nd_out::{Limit, Out, Refusal, Reports, Way};
use nd_steps::{link_local, note_wish, ready_for_wish, tell_wish, times_in_force};
use rand_core::Rng;
use std::alloc::{AllocError, Allocator};

/// The answer to the question where packets to a destination go.
#[derive(Clone, Copy, Debug, PartialEq, Eq)]
pub enum Resolution {
    /// They go there. The caller waits for a link-layer address that isn't known.
    Path(Way),
    /// The question is refused.
    Refused(Refusal),
}

/// Returns the link-layer address of a neighbour that was wanted, if it is known.
fn known_in(want: Want) -> Option<Mac>
    ensures { option_map (λ mac. number_of mac.0) result ≡ mac_in (wanting_of want) }
{
    match want {
        Want::Known(mac) => Some(mac),
        Want::Waits { .. } => None,
    }
}

impl<R: Rng + Drop, A: Allocator + Clone> Node<R, A> {
    ghost use Rattle.nd_node.specs.NodeKept.{Stands, next_of};
    ghost use Rattle.nd_node.specs.PathKept.{LeavesWays, hop_kept};

    /// Takes the wish for the link-layer address of `to`, a neighbour for which there is room, at the moment of the last event, in milliseconds, and
    /// returns the address if it is known (RFC 4861, sections 7.2.2 and 7.3.3). It takes no memory: the caller has made room for the solicitation, for
    /// the ring of a new neighbour, and for the answer, which is left.
    fn wish(
        &mut self,
        now: u64,
        to: Addr,
        solicitation: Option<FrameRoom<A>>,
        outs: &mut Reports<A>,
    ) -> Option<Mac>
        requires moment { IsMoment now }
        requires last { self.old.last ≡ now }
        requires place { has_room self.old.neighbours.limit now (number_of to.0) None self.old.neighbours.entries ≡ true }
        requires ring { entry_in (number_of to.0) self.old.neighbours.entries ≡ None → 0 < self.old.neighbours.rings }
        requires solicitation { entry_in (number_of to.0) self.old.neighbours.entries ≡ None → is_some solicitation ≡ true }
        requires room { rows_of_wish solicitation ≤ outs.old.free }
        ensures leads { (destination : Addr) → Leads R.stream self.old self.new outs.old.items (outs.new.items ++ (now, reports.Path destination (ways.To to result)) ∷ []) (WishTold now destination (number_of to.0)) }
        ensures left { 0 < outs.new.free }
        ensures ways { IfSome result (λ mac. LeavesWays self.old self.new × (mac_at (entry_in (number_of to.0) self.new.neighbours.entries) ≡ Some (number_of mac.0))) }
    {
        nd_neighbour::laws::none_overdue();
        nd_neighbour::laws::one_is_pushed_out();
        nd_neighbour::laws::room_is_place();
        let own = link_local(&self.addresses);
        let times = times_in_force(&self.params);
        match self.neighbours.want(now, to, times) {
            Ok(want) => {
                note_wish(&mut self.choice, want);
                tell_wish(outs, now, solicitation, self.mac, own, to, want);
                known_in(want)
            }
            Err(_) => unreachable!(),
        }
    }

    /// Answers where packets go whose next hop is the neighbour `to`, or refuses that if there is no room for the neighbour. Returns an error if out of
    /// memory; nothing has changed then.
    fn want_neighbour(
        &mut self,
        now: u64,
        to: Addr,
        outs: &mut Reports<A>,
    ) -> Result<Resolution, AllocError>
        requires moment { IsMoment now }
        requires settled { now < next_of self.old }
        ensures adds { IfOk result (λ resolution. (destination : Addr) → AddsWish R.stream self.old self.new outs.old.items (with_answer outs.new.items now destination resolution) now destination (number_of to.0) (answer_by resolution)) }
        ensures left { OnOk result (0 < outs.new.free) }
        ensures keeps { OnErr result (Keeps self.old self.new) }
        ensures told { OnErr result (outs.new.items ≡ outs.old.items) }
        ensures quiet { is_some (entry_in (number_of to.0) self.old.neighbours.entries) ≡ true → 0 < outs.old.free → IsOk result }
        ensures refused { (destination : Addr) (start : Start) (c : Chronicle) → Stands R.stream start self.old c → AddsRefusal now c (WantsIfPlaced start now destination (number_of to.0)) → 0 < outs.old.free → IsOk result }
        ensures way { IfOk result (LeadsTo to self.old self.new) }
    {
        nd_neighbour::laws::room_is_place();
        nd_neighbour::laws::full_by_history();
        if !self.neighbours.room(now, to, None) {
            return self.answer_at_once(
                now,
                Resolution::Refused(Refusal::Full(Limit::Neighbours)),
                outs,
            );
        }
        let solicitation = ready_for_wish(&mut self.neighbours, to, outs)?;
        self.advance_to(now);
        let mac = self.wish(now, to, solicitation, outs);
        Ok(Resolution::Path(Way::To(to, mac)))
    }

    /// Makes room for an answer that is all that the question adds, and advances the clock. Returns an error if out of memory; nothing has changed then.
    fn answer_at_once(
        &mut self,
        now: u64,
        resolution: Resolution,
        outs: &mut Reports<A>,
    ) -> Result<Resolution, AllocError>
        requires settled { now < next_of self.old }
        ensures adds { IfOk result (λ answer. (destination : Addr) → AddsAlone R.stream self.old self.new outs.old.items (with_answer outs.new.items now destination answer) now (answer_row destination answer)) }
        ensures answer { IfOk result (λ answer. answer ≡ resolution) }
        ensures clock { OnOk result (self.new ≡ record self.old { last = now }) }
        ensures left { OnOk result (0 < outs.new.free) }
        ensures keeps { OnErr result (Keeps self.old self.new) }
        ensures told { outs.new.items ≡ outs.old.items }
        ensures ready { 0 < outs.old.free → IsOk result }
    {
        outs.reserve(1)?;
        self.advance_to(now);
        Ok(resolution)
    }

    /// Answers where packets to `destination` go that is on the link: to its own link-layer address if it is multicast (RFC 2464, section 7), and
    /// otherwise as to a neighbour. Returns an error if out of memory; nothing has changed then.
    fn resolve_directly(
        &mut self,
        now: u64,
        destination: Addr,
        outs: &mut Reports<A>,
    ) -> Result<Resolution, AllocError>
        requires moment { IsMoment now }
        requires settled { now < next_of self.old }
        ensures adds { IfOk result (λ resolution. AddsPath R.stream self.old self.new outs.old.items (with_answer outs.new.items now destination resolution) now direct destination (answer_by resolution)) }
        ensures left { OnOk result (0 < outs.new.free) }
        ensures keeps { OnErr result (Keeps self.old self.new) }
        ensures told { OnErr result (outs.new.items ≡ outs.old.items) }
        ensures quiet { NeedsNoEntry direct destination self.old.neighbours.entries → 0 < outs.old.free → IsOk result }
        ensures refused { (start : Start) (c : Chronicle) → Stands R.stream start self.old c → AddsRefusal now c (PathAdds start now direct destination) → 0 < outs.old.free → IsOk result }
        ensures way { hop_kept self.old.role self.old now destination ≡ direct → IfOk result (IsWay self.new now destination) }
    {
        if destination.is_multicast() {
            let mac = Mac::multicast(destination);
            let way = Way::To(destination, Some(mac));
            return self.answer_at_once(now, Resolution::Path(way), outs);
        }
        self.want_neighbour(now, destination, outs)
    }

    /// Answers where packets to `destination` go whose next hop is `hop` (RFC 4861, section 5.2). Returns an error if out of memory; nothing has changed
    /// then.
    fn resolve_by_hop(
        &mut self,
        now: u64,
        hop: Hop,
        destination: Addr,
        outs: &mut Reports<A>,
    ) -> Result<Resolution, AllocError>
        requires moment { IsMoment now }
        requires settled { now < next_of self.old }
        ensures adds { IfOk result (λ resolution. AddsPath R.stream self.old self.new outs.old.items (with_answer outs.new.items now destination resolution) now (hop_of hop) destination (answer_by resolution)) }
        ensures left { OnOk result (0 < outs.new.free) }
        ensures keeps { OnErr result (Keeps self.old self.new) }
        ensures told { OnErr result (outs.new.items ≡ outs.old.items) }
        ensures quiet { NeedsNoEntry (hop_of hop) destination self.old.neighbours.entries → 0 < outs.old.free → IsOk result }
        ensures refused { (start : Start) (c : Chronicle) → Stands R.stream start self.old c → AddsRefusal now c (PathAdds start now (hop_of hop) destination) → 0 < outs.old.free → IsOk result }
        ensures way { hop_kept self.old.role self.old now destination ≡ hop_of hop → IfOk result (IsWay self.new now destination) }
    {
        match hop {
            Hop::Direct => self.resolve_directly(now, destination, outs),
            Hop::Via(router) => self.want_neighbour(now, router, outs),
            Hop::NoRoute => self.answer_at_once(now, Resolution::Path(Way::NoRoute), outs),
        }
    }

    /// Answers at `now`, in milliseconds, up to which nothing is due, where packets to `destination` go, for a caller that keeps them (RFC 4861, sections
    /// 5.2, 7.2.2 and 7.3.3): the event `Resolves` but for the report of its answer, which is returned instead. The list has room for that report.
    /// Returns an error if out of memory; nothing has happened then.
    pub fn answer_path(
        &mut self,
        now: u64,
        destination: Addr,
        outs: &mut Reports<A>,
    ) -> Result<Resolution, AllocError>
        requires moment { IsMoment now }
        requires settled { now < next_of self.old }
        ensures adds { IfOk result (λ resolution. AddsEvent R.stream self.old self.new outs.old.items (with_answer outs.new.items now destination resolution) now (events.Resolves destination) (answer_by resolution)) }
        ensures left { OnOk result (0 < outs.new.free) }
        ensures stays { OnErr result (Stays R.stream self.old self.new) }
        ensures told { OnErr result (outs.new.items ≡ outs.old.items) }
        ensures quiet { (places : ℕ) (start : Start) (c : Chronicle) → Stands R.stream start self.old c → last_moment start.at c ≤ now → IsAnsweredAtOnce start c self.old now destination places → 0 < outs.old.free → IsOk result }
        ensures refused { (start : Start) (c : Chronicle) → Stands R.stream start self.old c → last_moment start.at c ≤ now → AddsRefusal now c (EventAdds start now (events.Resolves destination)) → 0 < outs.old.free → IsOk result }
        ensures way { (start : Start) (c : Chronicle) → Stands R.stream start self.old c → last_moment start.at c ≤ now → IfOk result (IsWay self.new now destination) }
    {
        if let Some(refusal) = self.refusal_unless_up() {
            return self.answer_at_once(now, Resolution::Refused(refusal), outs);
        }
        let hop = self.hop_of_packet(now, destination);
        self.resolve_by_hop(now, hop, destination, outs)
    }

    /// Answers as `answer_path` does, and reports the answer. Returns an error if out of memory; nothing has happened then.
    pub(crate) fn resolve(
        &mut self,
        now: u64,
        destination: Addr,
        outs: &mut Reports<A>,
    ) -> Result<Answer, AllocError>
        requires moment { IsMoment now }
        requires settled { now < next_of self.old }
        ensures adds { IfOk result (λ answer. AddsEvent R.stream self.old self.new outs.old.items outs.new.items now (events.Resolves destination) (answer_of answer)) }
        ensures stays { OnErr result (Stays R.stream self.old self.new) }
        ensures told { OnErr result (outs.new.items ≡ outs.old.items) }
        ensures quiet { (places : ℕ) (start : Start) (c : Chronicle) → Stands R.stream start self.old c → last_moment start.at c ≤ now → IsAnsweredAtOnce start c self.old now destination places → 0 < outs.old.free → IsOk result }
        ensures refused { (start : Start) (c : Chronicle) → Stands R.stream start self.old c → last_moment start.at c ≤ now → AddsRefusal now c (EventAdds start now (events.Resolves destination)) → 0 < outs.old.free → IsOk result }
    {
        match self.answer_path(now, destination, outs)? {
            Resolution::Path(way) => {
                outs.push_reserved((now, Out::Path(destination, way)));
                Ok(Answer::Done)
            }
            Resolution::Refused(refusal) => {
                outs.push_reserved((now, Out::Refused(refusal)));
                Ok(Answer::Refused(refusal))
            }
        }
    }
}
