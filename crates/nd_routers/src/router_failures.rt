ghost use Rattle.std.specs.Prelude.{◌≡◌, ◌≤◌, ◌<◌, vec_len, vec_capacity, ℕ, List, IfSome, Some, slice_get};
ghost use Rattle.nd_addr.specs.Number.{number_of};
ghost use Rattle.nd_routers.specs.RouterFailures.{place_among};
ghost use Rattle.nd_routers.specs.RouterFailuresKept.{others};
ghost use Rattle.nd_routers.specs.Preferences.{preference_among};
ghost use Rattle.std.specs.Option.{option_map};
ghost use Rattle.nd_table.specs.Announcements.{stands};

use crate::preferred::preference_among;
use crate::router::Router;
use crate::routers::Routers;
use nd_addr::{Addr, Preference};
use nd_table::{compare, has, stands};
use std::alloc::Allocator;

/// A router of the list.
#[derive(Clone, Copy, Debug, PartialEq, Eq)]
pub struct Listed {
    pub addr: Addr,
    /// Its preference (RFC 4191, section 2.2).
    pub preference: Preference,
    /// If it failed since it entered the list, its place among the routers that did, by their last failures, the oldest first.
    pub failed: Option<u64>,
}

impl<A: Allocator> Routers<A> {
    ghost use Rattle.nd_routers.specs.History.{RouterRow, Failed};
    ghost use Rattle.nd_routers.specs.RoutersKept.{Stands, GainsRow, keys};
    ghost use Rattle.nd_routers.specs.RouterFailures.{place_among, FailsAt};

    /// Notes the failure of a router that can't be reached, if it is in the list, so that it is chosen last (RFC 4861, section 6.3.6). It takes no
    /// memory.
    pub fn failed(&mut self, source: Addr)
        ensures stands { (at : ℕ) → GainsRow self.old self.new (Failed at (number_of source.0)) }
        ensures entries { self.new.entries ≡ self.old.entries }
        ensures preferences { self.new.preferences ≡ self.old.preferences }
        ensures limit { self.new.limit ≡ self.old.limit }
    {
        if !has(&self.entries, &source) {
            return;
        }
        forget(&mut self.failed, source);
        // The others that failed are in the list too, so there is room.
        if self.failed.len() < self.limit {
            self.failed.push_reserved(Router::of(source));
        }
    }

    /// Returns a router by its number in the list, from 0 on. It takes no memory.
    pub fn at(&self, i: usize) -> Option<Listed>
        ensures value { option_map (λ l. number_of l.addr.0) result ≡ slice_get (keys self.now.entries) i }
        ensures preference { IfSome result (λ l. l.preference ≡ preference_among (number_of l.addr.0) self.now.preferences) }
        ensures failed { IfSome result (λ l. l.failed ≡ place_among (number_of l.addr.0) self.now.failed) }
        ensures by_history { IfSome result (λ l. (history : List RouterRow) → Stands self.now history → FailsAt history (number_of l.addr.0) l.failed) }
    {
        let entry = self.entries.get(i)?;
        let addr = entry.key.addr();
        Some(Listed {
            addr,
            preference: preference_among(&self.preferences, addr),
            failed: place(&self.failed, addr),
        })
    }
}

/// Removes the failure of a router.
pub(crate) fn forget<A: Allocator>(failed: &mut Vec<Router, A>, addr: Addr)
    ensures items { failed.new.items ≡ others (number_of addr.0) failed.old.items }
    ensures shorter { vec_len failed.new ≤ vec_len failed.old }
    ensures capacity { vec_capacity failed.new ≡ vec_capacity failed.old }
{
    failed.retain(|router| !compare(router.addr(), addr).is_eq());
}

/// Returns the place of a router, counted from 0.
pub(crate) fn place(failed: &[Router], addr: Addr) -> Option<u64>
    ensures { result ≡ place_among (number_of addr.0) failed.now }
{
    let mut place = 0;
    for router in failed {
        if compare(router.addr(), addr).is_eq() {
            return Some(place);
        }
        place += 1;
    }
    None
}
