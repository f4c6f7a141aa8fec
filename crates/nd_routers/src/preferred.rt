ghost use Rattle.std.specs.Prelude.{◌≡◌, ◌≤◌, ◌<◌, map, false, vec_len, vec_capacity, true, List, is_some};
ghost use Rattle.nd_addr.specs.Number.{number_of};
ghost use Rattle.nd_table.specs.Announcements.{end_of};
ghost use Rattle.nd_routers.specs.Preferences.{preference_among, preferred_anew, with_preference, without_preference};

use crate::router::Router;
use crate::routers::Routers;
use nd_addr::{Addr, Preference};
use nd_table::compare;
use std::alloc::Allocator;

/// A router of the list and its preference (RFC 4191, section 2.2).
#[derive(Debug, Drop)]
pub struct Preferred {
    router: Router,
    preference: Preference,
}

impl Preferred {
    pub(crate) fn preference(&self) -> Preference
        ensures { result ≡ self.now.preference }
    {
        self.preference
    }
}

impl<A: Allocator> Routers<A> {
    ghost use Rattle.nd_routers.specs.History.{RouterRow, announcements, preference_of};
    ghost use Rattle.nd_routers.specs.Routers.{same};
    ghost use Rattle.nd_routers.specs.RoutersKept.{Stands};

    /// Returns the preference of a router of the list, or Medium if it isn't in the list. It takes no memory.
    pub fn preference(&self, source: Addr) -> Preference
        ensures value { result ≡ preference_among (number_of source.0) self.now.preferences }
        ensures by_history { (history : List RouterRow) → Stands self.now history → is_some (end_of same (number_of source.0) (announcements history)) ≡ true
            → result ≡ preference_of (number_of source.0) history }
    {
        preference_among(&self.preferences, source)
    }
}

/// Returns the preference of a router among these, or Medium.
pub(crate) fn preference_among(preferences: &[Preferred], addr: Addr) -> Preference
    ensures { result ≡ preference_among (number_of addr.0) preferences.now }
{
    for preferred in preferences {
        if compare(preferred.router.addr(), addr).is_eq() {
            return preferred.preference;
        }
    }
    Preference::Medium
}

/// Removes a router that leaves the list.
pub(crate) fn forget_preference<A: Allocator>(preferences: &mut Vec<Preferred, A>, addr: Addr)
    ensures items { preferences.new.items ≡ without_preference (number_of addr.0) preferences.old.items }
    ensures shorter { vec_len preferences.new ≤ vec_len preferences.old }
    ensures capacity { vec_capacity preferences.new ≡ vec_capacity preferences.old }
{
    preferences.retain(|preferred| !compare(preferred.router.addr(), addr).is_eq());
}

fn prefer_one(preferred: &mut Preferred, addr: Addr, preference: Preference)
    ensures { preferred.new ≡ preferred_anew (number_of addr.0) preference preferred.old }
{
    if compare(preferred.router.addr(), addr).is_eq() {
        preferred.preference = preference;
    }
}

fn prefer_each(preferences: &mut [Preferred], addr: Addr, preference: Preference)
    ensures { preferences.new ≡ map (preferred_anew (number_of addr.0) preference) preferences.old }
{
    for preferred in preferences.iter_mut() {
        prefer_one(preferred, addr, preference);
    }
}

/// Sets the preference of a router. `listed`: the router was in the list; if it wasn't, there is room for it.
pub(crate) fn prefer<A: Allocator>(
    preferences: &mut Vec<Preferred, A>,
    listed: bool,
    addr: Addr,
    preference: Preference,
)
    requires { listed ≡ false → vec_len preferences.old < vec_capacity preferences.old }
    ensures items { preferences.new.items ≡ with_preference listed (number_of addr.0) preference preferences.old.items }
    ensures capacity { vec_capacity preferences.new ≡ vec_capacity preferences.old }
{
    if listed {
        prefer_each(preferences, addr, preference);
        return;
    }
    preferences.push_reserved(Preferred {
        router: Router::of(addr),
        preference,
    });
}
