//! When a router sends a Redirect (RFC 4861, section 8.2). The definitions are in `specs/Redirect.antt`.

ghost use Rattle.std.specs.Prelude.{◌≡◌, ℕ, Bool, List};
ghost use Rattle.nd_forwarding.specs.Forward.{is_sent};
ghost use Rattle.nd_forwarding.specs.ForwardKept.{fate_of};
ghost use Rattle.nd_forwarding.specs.History.{Row, RedirectMade};
ghost use Rattle.nd_forwarding.specs.Redirect.{first_hop, is_direct, last_redirect, may_redirect, other_than, redirect, redirects};
ghost use Rattle.nd_forwarding.specs.Routes.{routes};
ghost use Rattle.nd_forwarding.specs.Table.{GainsRow, Stands};

use crate::forward::{Fate, may_be_forwarded};
use crate::route::Route;
use crate::routes::Routes;
use nd_addr::{Addr, Ip6};
use std::alloc::Allocator;

/// The least time between two Redirects, in milliseconds (our choice).
const MIN_DELAY_BETWEEN_REDIRECTS: u64 = 100;

impl<A: Allocator> Routes<A> {
    /// Returns the target of the Redirect that is sent at `now`, in milliseconds, before a packet is forwarded, if one is (RFC 4861, section 8.2).
    /// `is_own`: the packet's destination is one of the node's own addresses.
    pub fn redirect_for(&self, now: u64, header: &Ip6, is_own: bool) -> Option<Addr>
        ensures value { (own : List ℕ → Bool) → own header.now.destination.0 ≡ is_own → result ≡ redirect own self.now.entries self.now.redirected now header.now }
        ensures by_history { (own : List ℕ → Bool) → own header.now.destination.0 ≡ is_own → (history : List Row) → Stands self.now history → result ≡ redirect own (routes history) (last_redirect history) now header.now }
    {
        if !self.redirects(header, is_own) || !may_redirect(now, self.redirected) {
            return None;
        }
        let target = first_hop(header.destination, self.look(header.destination));
        other_than(header.source, target)
    }

    /// Notes at `now`, in milliseconds, that a Redirect was made, which is sent now or waits for a neighbour's link-layer address.
    pub fn redirected(&mut self, now: u64)
        ensures stands { GainsRow self.old self.new (RedirectMade now) }
        ensures limit { self.new.limit ≡ self.old.limit }
    {
        self.redirected = Some(now);
    }

    /// Returns true if a packet is forwarded and its source is on the link.
    fn redirects(&self, header: &Ip6, is_own: bool) -> bool
        ensures { (own : List ℕ → Bool) → own header.now.destination.0 ≡ is_own → result ≡ redirects own self.now.entries header.now }
    {
        may_be_forwarded(header)
            && is_sent(self.forward(header, is_own))
            && is_direct(self.look(header.source))
    }
}

/// Returns true if a packet isn't lost.
fn is_sent(fate: Fate) -> bool
    ensures { result ≡ is_sent (fate_of fate) }
{
    match fate {
        Fate::Direct | Fate::Via(_) => true,
        Fate::NoRoute | Fate::HopLimit => false,
    }
}

/// Returns true if there is a route, directly to the destination.
fn is_direct(route: Option<Route>) -> bool
    ensures { result ≡ is_direct route }
{
    match route {
        Some(Route::Direct) => true,
        _ => false,
    }
}

/// Returns true if there was no Redirect before, or the last one was made long enough ago for another one (RFC 4861, section 8.2). Moments are in
/// milliseconds.
fn may_redirect(now: u64, last: Option<u64>) -> bool
    ensures { result ≡ may_redirect now last }
{
    match last {
        Some(last) => now >= last && now - last >= MIN_DELAY_BETWEEN_REDIRECTS,
        None => true,
    }
}

/// Returns the better first hop of a destination by its route, if that is the destination itself or a link-local address.
fn first_hop(destination: Addr, route: Option<Route>) -> Option<Addr>
    ensures { result ≡ first_hop destination route }
{
    match route {
        Some(Route::Direct) => Some(destination),
        Some(Route::Via(router)) if router.is_link_local() => Some(router),
        _ => None,
    }
}

/// Returns the target, unless it is the sender of the packet.
fn other_than(source: Addr, target: Option<Addr>) -> Option<Addr>
    ensures { result ≡ other_than source target }
{
    match target {
        Some(target) if target != source => Some(target),
        _ => None,
    }
}
