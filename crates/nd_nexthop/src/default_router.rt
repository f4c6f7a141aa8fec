//! Default router selection (RFC 4861, section 6.3.6; RFC 4191, section 3.2). The definitions are in `specs/DefaultRouter.antt`.

ghost use Rattle.std.specs.Prelude.{◌≡◌, ◌<◌, Some, length, slice_get, option_map};
ghost use Rattle.nd_addr.specs.Number.{number_of};
ghost use Rattle.nd_nexthop.specs.DefaultRouter.{failed_before, comes_before, is_less_recent, chosen_router};
ghost use Rattle.nd_nexthop.specs.DefaultRouterKept.{router_of, better_of};

use crate::view::View;
use nd_addr::{Addr, Preference};

/// A default router as the choice of a next hop sees it.
#[derive(Clone, Copy, Debug, PartialEq, Eq)]
pub struct Candidate {
    pub addr: Addr,
    /// It is reachable or probably reachable: it is in the neighbour cache, in another state than INCOMPLETE (RFC 4861, section 6.3.6).
    pub usable: bool,
    /// Its preference, from its last advertisement (RFC 4191, section 2.2).
    pub preference: Preference,
    /// If it failed since it entered the list, its place among the routers that did, by their last failures, the oldest first.
    pub failed: Option<u64>,
}

/// Returns the default router that packets take (RFC 4861, section 6.3.6; RFC 4191, section 3.2): of the usable ones the one with the highest
/// preference; if none is usable, the one that failed least recently, those first that never failed, and among equals the one with the highest
/// preference. The first of the list wins a tie.
pub(crate) fn chosen_router<V: View>(view: &V) -> Option<Addr>
    ensures { option_map (λ a. number_of a.0) result ≡ chosen_router (V.candidates view.now) }
{
    let mut chosen = None;
    for i in 0..view.routers() {
        chosen = Some(better(chosen, router_at(view, i)));
    }
    match chosen {
        Some(router) => Some(router.addr),
        None => None,
    }
}

/// Returns a router of the list by its number.
fn router_at<V: View>(view: &V, i: usize) -> Candidate
    requires { i < length (V.candidates view.now) }
    ensures { Some (router_of result) ≡ slice_get (V.candidates view.now) i }
{
    match view.router(i) {
        Some(router) => router,
        None => unreachable!(),
    }
}

/// Returns the router that comes before the other one, and the first if neither does.
fn better(first: Option<Candidate>, second: Candidate) -> Candidate
    ensures { router_of result ≡ better_of (option_map router_of first) (router_of second) }
{
    match first {
        Some(first) if !comes_before(second, first) => first,
        _ => second,
    }
}

/// Returns true if `a` comes before `b`: a usable router before one that isn't, and of two usable ones the preferred one.
fn comes_before(a: Candidate, b: Candidate) -> bool
    ensures { result ≡ comes_before (router_of a) (router_of b) }
{
    match (a.usable, b.usable) {
        (true, true) => a.preference.is_above(b.preference),
        (true, false) => true,
        (false, true) => false,
        (false, false) => is_less_recent(a, b),
    }
}

/// Returns true if `a` failed less recently than `b`, or neither ever failed and `a` is preferred.
fn is_less_recent(a: Candidate, b: Candidate) -> bool
    ensures { result ≡ is_less_recent (router_of a) (router_of b) }
{
    if failed_before(a.failed, b.failed) {
        return true;
    }
    if failed_before(b.failed, a.failed) {
        return false;
    }
    a.preference.is_above(b.preference)
}

/// Returns true if the failure in place `a` was before that in place `b`. A router that never failed comes before all that did.
fn failed_before(a: Option<u64>, b: Option<u64>) -> bool
    ensures { result ≡ failed_before a b }
{
    match (a, b) {
        (_, None) => false,
        (None, Some(_)) => true,
        (Some(a), Some(b)) => a < b,
    }
}
