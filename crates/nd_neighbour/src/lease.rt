//! What leaves the leases of neighbours: up to when packets may be sent to them without a question (RFC 4861, section 7.3.3). The definitions are in
//! `specs/LeaseKept.antt`.

ghost use Rattle.std.specs.Prelude.{Some, ◌+◌, ◌<◌, ◌^◌, ◌≡◌};
ghost use Rattle.nd_addr.specs.Number.{number_of};
ghost use Rattle.nd_neighbour.specs.LeaseKept.{outlasts, leased_to};
ghost use Rattle.nd_neighbour.specs.TableKept.{Rises, entry_in};

use crate::entry::{Entry, STALE_LIFETIME, Stage};
use nd_addr::Addr;
use nd_table::find;
use std::alloc::Allocator;

/// Returns true if a neighbour that is REACHABLE up to `end`, in milliseconds, keeps its lease, and nothing is due for it earlier. It may have no entry.
pub(crate) fn outlasts<A: Allocator>(entries: &[Entry<A>], addr: Addr, end: u64) -> bool
    requires order { Rises entries.now }
    requires end { end < 2 ^ 63 }
    ensures { result ≡ outlasts end (entry_in (number_of addr.0) entries.now) }
{
    match find(entries, addr) {
        Some(i) => entries[i].is_outlasted(end),
        None => true,
    }
}

impl<A: Allocator> Entry<A> {
    /// Returns true if its lease ends by `end`, in milliseconds, and nothing is due for it later than for one that was REACHABLE up to then.
    fn is_outlasted(&self, end: u64) -> bool
        requires { end < 2 ^ 63 }
        ensures { result ≡ outlasts end (Some self.now) }
    {
        match &self.stage {
            Stage::Resolving { .. } => true,
            Stage::Known { .. } => {
                self.leased_until() <= end && self.due <= end + STALE_LIFETIME
            }
        }
    }

    /// Returns the end of its lease, in milliseconds.
    fn leased_until(&self) -> u64
        ensures { result ≡ leased_to self.now.stage self.now.due }
    {
        match &self.stage {
            Stage::Resolving { .. } => 0,
            Stage::Known {
                confirmed,
                since,
                probing,
                ..
            } => {
                let reachable = if *confirmed { *since } else { 0 };
                let probed = if probing.is_some() { self.due } else { 0 };
                reachable.max(probed)
            }
        }
    }
}
