//! Does what is due at a node as time passes.

ghost use Rattle.std.specs.Prelude.{◌≡◌, ℕ, ◌+◌, ◌<◌, ◌≤◌, ◌⊎◌, None, Ok, Some, IfOk, IfSome, IsOk, IsSome, IsSomeAnd, OnOk, OnErr, true};
ghost use Rattle.nd_advertiser.specs.Contents.{contents_length};
ghost use Rattle.nd_compose.specs.Room.{HasRoomFor};
ghost use Rattle.nd_packet.specs.Waiting.{max_waiting};
ghost use Rattle.nd_steps.specs.Outputs.{Grows, SendsFrame};
ghost use Rattle.nd_steps.specs.RouterTables.{next_advertisement};
ghost use Rattle.nd_table.specs.Moment.{IsMoment};
ghost use Rattle.nd_node.specs.Time.{Advances, Comes, IsInHand, Leads, Onward, Passes, longest_due};

use crate::due::leaves_paths;
use crate::node::Node;
use nd_addr::Role;
use nd_compose::{FrameRoom, LONGEST_MESSAGE};
use nd_out::Reports;
use nd_steps::{MOST_TOLD, link_local, tell};
use rand_core::Rng;
use std::alloc::{AllocError, Allocator};

/// What was left when the first thing that was due was done.
#[derive(Drop)]
pub struct Turn<A: Allocator> {
    /// The room, unless a frame was written into it.
    pub room: Option<FrameRoom<A>>,
    /// False if a path may be another one, or may end earlier.
    pub leaves_paths: bool,
}

impl<R: Rng + Drop, A: Allocator + Clone> Node<R, A> {
    ghost use Rattle.nd_node.specs.NodeKept.{next_of, turns_left};
    ghost use Rattle.nd_node.specs.PathKept.{LeavesPaths};

    /// Returns how long a message that the node sends when something is due can be, in bytes: a router's advertisement with all that it has room to
    /// offer (RFC 4861, section 6.2.3), or one with a link-layer address.
    pub fn longest_due(&self) -> usize
        ensures value { result ≡ longest_due self.now }
        ensures most { result ≤ 544 }
    {
        match self.role {
            Role::Host => LONGEST_MESSAGE,
            Role::Router => self.router.advertiser.longest(),
        }
    }

    /// Returns how long a message that the node sends at `now` can be, in bytes, where that is the moment at which something is due next.
    fn longest_at(&self, now: u64) -> usize
        ensures advertisement { next_advertisement self.now.role self.now.router ≡ Some now → result ≡ contents_length self.now.router.advertiser.limit }
        ensures most { result ≤ longest_due self.now }
        ensures few { result ≤ 544 }
    {
        match self.router.next_due(self.role) {
            Some(at) if at == now => self.longest_due(),
            _ => LONGEST_MESSAGE,
        }
    }

    /// Does the first thing that is due at `now`, in milliseconds, as `turn` does, with room for the frame and for what is reported. It takes no
    /// memory. Returns the room, unless a frame was written into it, and whether the paths are left.
    pub fn turn_in(&mut self, now: u64, room: FrameRoom<A>, outs: &mut Reports<A>) -> Turn<A>
        requires moment { IsMoment now }
        requires due { now ≡ next_of self.old }
        requires long { next_advertisement self.old.role self.old.router ≡ Some now → HasRoomFor room (contents_length self.old.router.advertiser.limit) }
        requires places { max_waiting + 1 ≤ outs.old.free }
        ensures leads { Leads R.stream self.old self.new outs.old.items outs.new.items (Comes now) }
        ensures fewer { (end : ℕ) → now ≤ end → turns_left end self.new < turns_left end self.old }
        ensures leaves { result.leaves_paths ≡ true → LeavesPaths self.old self.new }
        ensures same { IfSome result.room (λ rest. rest ≡ room) }
        ensures sends { result.room ≡ None → SendsFrame outs.old.items outs.new.items }
        ensures grows { Grows outs.old.items outs.new.items }
        ensures longest { longest_due self.new ≡ longest_due self.old }
    {
        let own = link_local(&self.addresses);
        let turned = self.take_turn(now);
        let leaves_paths = leaves_paths(&turned);
        let left = tell(outs, now, room, self.mac, own, &self.router, turned);
        Turn {
            room: left,
            leaves_paths,
        }
    }

    /// Does the first thing that is due at `now`, in milliseconds, as `turn_in` does, in the room in reserve if that is long enough. Returns true if
    /// the paths are left, or an error if out of memory; nothing has changed then.
    fn turn_with(
        &mut self,
        now: u64,
        room: &mut Option<FrameRoom<A>>,
        outs: &mut Reports<A>,
    ) -> Result<bool, AllocError>
        requires moment { IsMoment now }
        requires due { now ≡ next_of self.old }
        ensures leads { OnOk result (Leads R.stream self.old self.new outs.old.items outs.new.items (Comes now)) }
        ensures fewer { OnOk result ((end : ℕ) → now ≤ end → turns_left end self.new < turns_left end self.old) }
        ensures same { OnErr result (self.new ≡ self.old) }
        ensures told { OnErr result (outs.new.items ≡ outs.old.items) }
        ensures leaves { IfOk result (λ leaves. leaves ≡ true → LeavesPaths self.old self.new) }
        ensures succeeds { IsInHand self.old room.old → max_waiting + 1 ≤ outs.old.free → IsOk result }
        ensures room { (room.new ≡ room.old) ⊎ SendsFrame outs.old.items outs.new.items }
        ensures grows { Grows outs.old.items outs.new.items }
        ensures longest { longest_due self.new ≡ longest_due self.old }
    {
        outs.reserve(MOST_TOLD)?;
        let longest = self.longest_at(now);
        match taken_if_long(room, longest) {
            Some(in_hand) => {
                let turn = self.turn_in(now, in_hand, outs);
                *room = turn.room;
                Ok(turn.leaves_paths)
            }
            None => {
                let made = FrameRoom::with_room(outs.allocator().clone()?, longest)?;
                let turn = self.turn_in(now, made, outs);
                Ok(turn.leaves_paths)
            }
        }
    }

    /// Does the first thing that is due at `now`, in milliseconds, and reports it; the caller passes the moment that `next_due` returns. The order
    /// is: ends of routers, ends of own addresses, duplicate address detection, neighbours, Router Solicitations, Router Advertisements, a redraw
    /// of ReachableTime; within each, the order of addresses. Returns an error if out of memory; nothing has changed then.
    pub fn turn(&mut self, now: u64, outs: &mut Reports<A>) -> Result<(), AllocError>
        requires moment { IsMoment now }
        requires due { now ≡ next_of self.old }
        ensures leads { OnOk result (Leads R.stream self.old self.new outs.old.items outs.new.items (Comes now)) }
        ensures fewer { OnOk result ((end : ℕ) → now ≤ end → turns_left end self.new < turns_left end self.old) }
        ensures same { OnErr result (self.new ≡ self.old) }
        ensures told { OnErr result (outs.new.items ≡ outs.old.items) }
    {
        self.turn_with(now, &mut None, outs)?;
        Ok(())
    }

    /// Does all that is due up to `now`, in milliseconds, and reports it. Returns an error if out of memory; the rest can be done later.
    pub fn settle(&mut self, now: u64, outs: &mut Reports<A>) -> Result<(), AllocError>
        requires { IsMoment now }
        ensures onward { Leads R.stream self.old self.new outs.old.items outs.new.items (Onward now) }
        ensures passes { OnOk result (Leads R.stream self.old self.new outs.old.items outs.new.items (Passes now)) }
        ensures settled { OnOk result (now < next_of self.new) }

        // If nothing is due up to `now` nothing happens, even if no memory is left.
        ensures idle { now < next_of self.old → (result ≡ Ok tt) × (self.new ≡ self.old) × (outs.new ≡ outs.old) }
    {
        self.go_on(now, &mut None, outs, true)?;
        Ok(())
    }

    /// Does all that is due up to `now`, in milliseconds, as `settle` does. The first frame is written into the room in reserve, if that is long
    /// enough for it; the room stays, unless a frame was written into it. Returns true if the paths are left, or an error if out of memory; the rest can
    /// be done later.
    pub fn settle_in(
        &mut self,
        now: u64,
        room: &mut Option<FrameRoom<A>>,
        outs: &mut Reports<A>,
    ) -> Result<bool, AllocError>
        requires { IsMoment now }
        ensures onward { Leads R.stream self.old self.new outs.old.items outs.new.items (Onward now) }
        ensures passes { OnOk result (Leads R.stream self.old self.new outs.old.items outs.new.items (Passes now)) }
        ensures settled { OnOk result (now < next_of self.new) }
        ensures idle { now < next_of self.old → (result ≡ Ok true) × (self.new ≡ self.old) × (room.new ≡ room.old) × (outs.new ≡ outs.old) }
        ensures leaves { IfOk result (λ leaves. leaves ≡ true → LeavesPaths self.old self.new) }

        // With room for the longest frame and for what one thing that is due reports, the first one is done even if no memory is left.
        ensures advances { IsInHand self.old room.old → max_waiting + 1 ≤ outs.old.free → OnErr result (Leads R.stream self.old self.new outs.old.items outs.new.items (Advances now)) }
        ensures room { (room.new ≡ room.old) ⊎ SendsFrame outs.old.items outs.new.items }
        ensures grows { Grows outs.old.items outs.new.items }
        ensures longest { longest_due self.new ≡ longest_due self.old }
    {
        nd_chronicle::laws::idle_time_passes();
        let next = self.next_due();
        if next > now {
            return Ok(true);
        }
        let leaves = self.turn_with(next, room, outs)?;
        self.go_on(now, room, outs, leaves)
    }

    /// Does what is due up to `now`, in milliseconds, one thing after the other. Returns true if the paths are left, and were before: `leaves`.
    fn go_on(
        &mut self,
        now: u64,
        room: &mut Option<FrameRoom<A>>,
        outs: &mut Reports<A>,
        mut leaves: bool,
    ) -> Result<bool, AllocError>
        requires { IsMoment now }
        ensures onward { Leads R.stream self.old self.new outs.old.items outs.new.items (Onward now) }
        ensures passes { OnOk result (Leads R.stream self.old self.new outs.old.items outs.new.items (Passes now)) }
        ensures settled { OnOk result (now < next_of self.new) }
        ensures idle { now < next_of self.old → (result ≡ Ok leaves) × (self.new ≡ self.old) × (outs.new ≡ outs.old) }
        ensures leaves { IfOk result (λ all. all ≡ true → (leaves ≡ true) × LeavesPaths self.old self.new) }
        ensures room { (room.new ≡ room.old) ⊎ SendsFrame outs.old.items outs.new.items }
        ensures grows { Grows outs.old.items outs.new.items }
        ensures longest { longest_due self.new ≡ longest_due self.old }
    {
        nd_chronicle::laws::idle_time_passes();
        loop {
            let next = self.next_due();
            if next > now {
                return Ok(leaves);
            }
            let turn_leaves = self.turn_with(next, room, outs)?;
            leaves &= turn_leaves;
        }
    }
}

/// Takes the room in reserve, if it is long enough for a message of `length` bytes.
fn taken_if_long<A: Allocator>(
    room: &mut Option<FrameRoom<A>>,
    length: usize,
) -> Option<FrameRoom<A>>
    requires { length ≤ 65535 }
    ensures taken { IfSome result (λ r. (room.old ≡ Some r) × HasRoomFor r length) }
    ensures left { result ≡ None → room.new ≡ room.old }
    ensures long { IsSomeAnd room.old (λ r. HasRoomFor r length) → IsSome result }
{
    match room {
        Some(in_hand) if in_hand.has_room_for(length) => room.take(),
        _ => None,
    }
}
