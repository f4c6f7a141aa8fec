//! What is due at a node, and when.

ghost use Rattle.std.specs.Prelude.{◌≡◌, ℕ, ◌<◌, ◌≤◌, ◌↔◌, IsTrue, Some, true};
ghost use Rattle.nd_table.specs.Moment.{IsMoment};
ghost use Rattle.nd_steps.specs.Turned.{what_of};
ghost use Rattle.nd_node.specs.Moments.{earlier};
ghost use Rattle.nd_node.specs.PathKept.{leaves_paths};

use crate::node::Node;
use nd_steps::{Turned, forget_if_ended, note_failure, redraw_reachable_time};
use rand_core::Rng;
use std::alloc::Allocator;

impl<R: Rng + Drop, A: Allocator + Clone> Node<R, A> {
    ghost use Rattle.nd_chronicle.specs.Start.{Start};
    ghost use Rattle.nd_chronicle.specs.Happening.{Chronicle};
    ghost use Rattle.nd_chronicle.specs.Due.{Due, RouterAdvertises, comes};
    ghost use Rattle.nd_steps.specs.RouterTables.{next_advertisement};
    ghost use Rattle.nd_node.specs.Node.{NextDue};
    ghost use Rattle.nd_node.specs.NodeKept.{Stands, next_of, turns_left};
    ghost use Rattle.nd_node.specs.PathKept.{LeavesPaths};

    /// Returns the moment, in milliseconds, at which something is due next.
    pub fn next_due(&self) -> u64
        ensures value { result ≡ next_of self.now }
        ensures due { (start : Start) (c : Chronicle) → Stands R.stream start self.now c → NextDue start c result }
    {
        let redraw = self.params.next_due();
        let advertisement = earlier(self.router.next_due(self.role), redraw);
        let solicitation = earlier(self.solicitations.next_due(self.role), advertisement);
        let neighbour = earlier(self.neighbours.next_due(), solicitation);
        let address = earlier(self.addresses.next_due(), neighbour);
        earlier(self.routers.next_due(), address)
    }

    /// Returns true if nothing is due up to `now`, in milliseconds.
    pub fn settled(&self, now: u64) -> bool
        ensures { IsTrue result ↔ (now < next_of self.now) }
    {
        now < self.next_due()
    }

    /// Does the first thing that is due at `now`, in milliseconds; the caller passes the moment that `next_due` returns. The order is: ends of
    /// routers, ends of own addresses, duplicate address detection, neighbours, Router Solicitations, Router Advertisements, a redraw of
    /// ReachableTime; within each, the order of addresses. It takes no memory.
    pub(crate) fn take_turn(&mut self, now: u64) -> Turned<A>
        requires moment { IsMoment now }
        requires due { now ≡ next_of self.old }
        ensures due { (start : Start) (c : Chronicle) → Stands R.stream start self.old c → Due start c now (Some (what_of result)) }
        ensures stands { (start : Start) (c : Chronicle) → Stands R.stream start self.old c → Stands R.stream start self.new (comes start now (what_of result) c) }
        ensures fewer { (end : ℕ) → now ≤ end → turns_left end self.new < turns_left end self.old }
        ensures limit { self.new.router.advertiser.limit ≡ self.old.router.advertiser.limit }
        ensures role { self.new.role ≡ self.old.role }
        ensures advertisement { what_of result ≡ RouterAdvertises → next_advertisement self.old.role self.old.router ≡ Some now }
        ensures leaves { leaves_paths (what_of result) ≡ true → LeavesPaths self.old self.new }
    {
        let turned = self.do_first_due(now);
        self.advance_to(now);
        turned
    }

    /// Does what `take_turn` does, but leaves the clock.
    fn do_first_due(&mut self, now: u64) -> Turned<A>
        requires moment { IsMoment now }
        requires due { now ≡ next_of self.old }
        ensures due { (start : Start) (c : Chronicle) → Stands R.stream start self.old c → Due start c now (Some (what_of result)) }
        ensures stands { (start : Start) (c : Chronicle) → Stands R.stream start self.old c → Stands R.stream start (record self.new { last = now }) (comes start now (what_of result) c) }
        ensures fewer { (end : ℕ) → now ≤ end → turns_left end self.new < turns_left end self.old }
        ensures limit { self.new.router.advertiser.limit ≡ self.old.router.advertiser.limit }
        ensures role { self.new.role ≡ self.old.role }
        ensures advertisement { what_of result ≡ RouterAdvertises → next_advertisement self.old.role self.old.router ≡ Some now }
        ensures leaves { leaves_paths (what_of result) ≡ true → LeavesPaths self.old self.new }
    {
        if let Some(addr) = self.routers.turn(now) {
            // "all entries in the Destination Cache that use that router" go with it (RFC 4861, section 6.3.5).
            self.choice.target_gone(addr);
            return Turned::EndedRouter(addr);
        }
        if let Some(due) = self.addresses.turn(now) {
            forget_if_ended(&mut self.choice, due);
            let own = self.addresses.link_local();
            self.solicitations.note_address(own, now, due);
            self.router.note_address(own, now, due);
            return Turned::Address(due);
        }
        if let Some(due) = self.neighbours.turn(now) {
            note_failure(&mut self.routers, &mut self.choice, &due);
            return Turned::Neighbour(due);
        }
        if self.solicitations.turn(self.role, now) {
            return Turned::SolicitedRouters;
        }
        if self.router.turn(self.role, now, &mut self.generator) {
            return Turned::RouterAdvertised;
        }
        redraw_reachable_time(&mut self.params, &mut self.generator, now);
        Turned::Redrawn
    }
}

/// Returns true if what was due leaves the paths of a node, as a solicitation for a neighbour does.
pub(crate) fn leaves_paths<A: Allocator>(turned: &Turned<A>) -> bool
    ensures { result ≡ leaves_paths (what_of turned.now) }
{
    match turned {
        Turned::Neighbour(due) => due.stays(),
        Turned::EndedRouter(_)
        | Turned::Address(_)
        | Turned::SolicitedRouters
        | Turned::RouterAdvertised
        | Turned::Redrawn => false,
    }
}

/// Returns the earlier of two moments, of which `a` may be missing.
pub(crate) fn earlier(a: Option<u64>, b: u64) -> u64
    ensures { result ≡ earlier a b }
{
    match a {
        Some(a) => a.min(b),
        None => b,
    }
}
