//! Next-hop determination (RFC 4861, section 5.2). The definitions are in `specs/NextHop.antt`.

ghost use Rattle.std.specs.Prelude.{◌≡◌, ◌⊎◌, ℕ, List, Contains, bytes_eq, option_map, true};
ghost use Rattle.nd_addr.specs.Number.{number_of};
ghost use Rattle.nd_nexthop.specs.NextHop.{hop, by_redirect, is_own_or_none};
ghost use Rattle.nd_nexthop.specs.NextHopKept.{hop_of};
ghost use Rattle.nd_nexthop.specs.DefaultRouter.{chosen_router};
ghost use Rattle.nd_nexthop.specs.History.{RedirectRow, kept};

use crate::choice::Choice;
use crate::default_router::chosen_router;
use crate::view::View;
use nd_addr::Addr;
use nd_table::compare;
use std::alloc::Allocator;

/// Where a packet goes.
#[derive(Clone, Copy, Debug, PartialEq, Eq)]
pub enum Hop {
    /// To its destination, which is on the link.
    Direct,
    /// To this address on the link, a router or the target of a redirect.
    Via(Addr),
    /// Nowhere.
    NoRoute,
}

impl<A: Allocator + Clone> Choice<A> {
    ghost use Rattle.nd_nexthop.specs.declared.next_hop.Hop.{Hop as Answer};
    ghost use Rattle.nd_nexthop.specs.Memo.{is_asked};
    ghost use Rattle.nd_nexthop.specs.Choice.{Agrees, Stands, target_in};

    /// Returns the next hop of a packet at `now`, in milliseconds (RFC 4861, section 5.2), if what is remembered agrees with the view. It
    /// remembers the next hop of a destination that isn't link-local; when out of memory it does not, and nothing else differs.
    pub fn next_hop<V: View>(&mut self, now: u64, destination: Addr, view: &V) -> Hop
        ensures value { Agrees now (V.own view.now) (V.linked view.now) (V.candidates view.now) self.old
            → hop_of result ≡ hop (V.own view.now) (V.linked view.now) (V.candidates view.now) (target_in (number_of destination.0) self.old.redirects.entries) destination.0 }
        ensures by_history { Agrees now (V.own view.now) (V.linked view.now) (V.candidates view.now) self.old
            → (history : List RedirectRow) → Stands self.old history → hop_of result ≡ hop (V.own view.now) (V.linked view.now) (V.candidates view.now) (kept self.old.redirects.limit (number_of destination.0) history) destination.0 }
        ensures agrees { Agrees now (V.own view.now) (V.linked view.now) (V.candidates view.now) self.old → Agrees now (V.own view.now) (V.linked view.now) (V.candidates view.now) self.new }
        ensures stands { (history : List RedirectRow) → Stands self.old history → Stands self.new history }

        // Each next hop that is remembered afterwards was remembered before, or is this one, if it may be used at `now`.
        ensures remembers { (e : ℕ × Answer) → Contains self.new.memory.hops e → Contains self.old.memory.hops e ⊎ ((is_asked now self.old.memory.until ≡ true) × (e ≡ (number_of destination.0, result))) }
        ensures redirects { self.new.redirects ≡ self.old.redirects }
        ensures until { self.new.memory.until ≡ self.old.memory.until }
    {
        nd_addr::laws::addresses_are_told_by_numbers();
        let _bytes = destination.as_bytes();
        // fe80::/64 is always on the link, and the rest of fe80::/10 is no node's: to determine this next hop costs less than to remember it.
        if destination.is_link_local() {
            return determine(self.target(destination), destination, view);
        }
        match self.memo.recall(now, destination) {
            Some(hop) => hop,
            None => {
                let hop = determine(self.target(destination), destination, view);
                self.memo.remember(now, destination, hop);
                hop
            }
        }
    }
}

impl<A: Allocator> Choice<A> {
    ghost use Rattle.nd_nexthop.specs.Choice.{Stands, target_in};

    /// Determines the next hop of a packet anew, from the view (RFC 4861, section 5.2). It neither reads nor changes what is remembered, and takes
    /// no memory.
    pub fn determine<V: View>(&self, destination: Addr, view: &V) -> Hop
        ensures value { hop_of result ≡ hop (V.own view.now) (V.linked view.now) (V.candidates view.now) (target_in (number_of destination.0) self.now.redirects.entries) destination.0 }
        ensures by_history { (history : List RedirectRow) → Stands self.now history → hop_of result ≡ hop (V.own view.now) (V.linked view.now) (V.candidates view.now) (kept self.now.redirects.limit (number_of destination.0) history) destination.0 }
    {
        determine(self.target(destination), destination, view)
    }

    /// Returns the target of a destination's kept redirect. A look-up does not change which redirect is evicted first.
    fn target(&self, destination: Addr) -> Option<Addr>
        ensures { option_map (λ a. number_of a.0) result ≡ target_in (number_of destination.0) self.now.redirects.entries }
    {
        // Mostly there is none, and a look-up has to make a hash.
        if self.redirects.is_empty() {
            return None;
        }
        match self.redirects.peek(&destination.to_bits()) {
            Some(target) => target.addr(),
            None => None,
        }
    }
}

/// Returns the next hop of a packet; `redirect` is the target of its destination's kept redirect, if there is one.
fn determine<V: View>(redirect: Option<Addr>, destination: Addr, view: &V) -> Hop
    ensures { hop_of result ≡ hop (V.own view.now) (V.linked view.now) (V.candidates view.now) (option_map (λ a. number_of a.0) redirect) destination.0 }
{
    if is_own_or_none(destination, view) {
        return Hop::NoRoute;
    }
    if destination.is_multicast() {
        return Hop::Direct;
    }
    if let Some(target) = redirect {
        return by_redirect(target, destination);
    }
    if view.on_link(destination) {
        return Hop::Direct;
    }
    match chosen_router(view) {
        Some(router) => Hop::Via(router),
        None => Hop::NoRoute,
    }
}

/// Returns true if nothing is sent to an address, since it is unspecified, the loopback address or one of the node's own.
fn is_own_or_none<V: View>(destination: Addr, view: &V) -> bool
    ensures { result ≡ is_own_or_none (V.own view.now) destination.0 }
{
    is_same(destination, Addr::UNSPECIFIED)
        || is_same(destination, Addr::LOOPBACK)
        || view.is_own(destination)
}

/// Returns true if two addresses are the same, by their numbers: to compare their bytes takes longer.
fn is_same(a: Addr, b: Addr) -> bool
    ensures { result ≡ bytes_eq a.0 b.0 }
{
    nd_addr::laws::addresses_are_told_by_numbers();
    let _a = a.as_bytes();
    let _b = b.as_bytes();
    a.to_bits() == b.to_bits()
}

/// Returns the next hop of a redirected packet: the target, which is the destination if that is on the link (RFC 4861, section 8.3).
fn by_redirect(target: Addr, destination: Addr) -> Hop
    ensures { hop_of result ≡ by_redirect (number_of target.0) (number_of destination.0) }
{
    if compare(target, destination).is_eq() {
        Hop::Direct
    } else {
        Hop::Via(target)
    }
}
