//! An upper layer confirms reachability (RFC 4861, section 7.3.1). The definitions are in `specs/ReachabilityConfirmation.antt`.

ghost use Rattle.std.specs.Prelude.{true, vec_capacity, vec_len, ◌+◌, ◌<◌, ◌^◌, ◌≡◌};
ghost use Rattle.nd_addr.specs.Number.{number_of};
ghost use Rattle.nd_table.specs.Moment.{IsMoment};
ghost use Rattle.nd_neighbour.specs.ReachabilityConfirmationKept.{confirmed};
ghost use Rattle.nd_neighbour.specs.Planned.{IsPlanned};
ghost use Rattle.nd_neighbour.specs.TableKept.{Alters};

use crate::cache::Cache;
use crate::entry::Entry;
use crate::lease::outlasts;
use nd_addr::Addr;
use nd_table::{Dated, Schedule, find};
use std::alloc::Allocator;

impl<A: Allocator> Cache<A> {
    ghost use Rattle.nd_neighbour.specs.History.{Confirmed};
    ghost use Rattle.nd_neighbour.specs.LeaseKept.{LeavesLeases, outlasts};
    ghost use Rattle.nd_neighbour.specs.TableKept.{GainsRow, entry_in};

    /// Takes an upper layer's confirmation that a neighbour is reachable (RFC 4861, section 7.3.1). It is REACHABLE for `reachable` milliseconds
    /// from `now` on. If it has no entry, or an entry without a link-layer address, nothing changes. Returns false if packets might have been sent to it
    /// without a question for longer, or if something was due for it later than is now.
    pub fn confirmed(&mut self, now: u64, addr: Addr, reachable: u64) -> bool
        requires moment { IsMoment now }
        requires span { reachable < 2 ^ 62 }
        ensures stands { GainsRow self.old.entries self.new.entries (now, number_of addr.0, Confirmed reachable) }
        ensures value { result ≡ outlasts (now + reachable) (entry_in (number_of addr.0) self.old.entries) }
        ensures leaves { result ≡ true → LeavesLeases self.old.entries self.new.entries }
        ensures limit { self.new.limit ≡ self.old.limit }
        ensures rings { self.new.rings ≡ self.old.rings }
        ensures waiting { self.new.waiting ≡ self.old.waiting }
    {
        let leaves = outlasts(&self.entries, addr, now + reachable);
        confirm(&mut self.entries, &mut self.dates, now, addr, reachable);
        leaves
    }
}

/// Takes an upper layer's confirmation for a neighbour that may have an entry (RFC 4861, section 7.3.1).
pub(crate) fn confirm<A: Allocator>(
    entries: &mut Vec<Entry<A>, A>,
    dates: &mut Schedule<A>,
    now: u64,
    addr: Addr,
    reachable: u64,
)
    requires moment { IsMoment now }
    requires span { reachable < 2 ^ 62 }
    requires planned { IsPlanned entries.old.items dates.old }
    ensures alters { Alters (number_of addr.0) (λ n. confirmed now reachable n) entries.old.items entries.new.items }
    ensures planned { IsPlanned entries.new.items dates.new }
    ensures room { dates.new.room ≡ dates.old.room }
    ensures len { vec_len entries.new ≡ vec_len entries.old }
    ensures capacity { vec_capacity entries.new ≡ vec_capacity entries.old }
{
    if let Some(i) = find(entries, addr) {
        let entry = &mut entries[i];
        let was = entry.date();
        entry.confirm(now, reachable);
        dates.change(was, entry.date(), addr);
    }
}

impl<A: Allocator> Entry<A> {
    ghost use Rattle.nd_neighbour.specs.ReachabilityConfirmationKept.{confirmed};

    /// Takes an upper layer's confirmation that it is reachable (RFC 4861, sections 7.3.1 and 7.3.3).
    pub(crate) fn confirm(&mut self, now: u64, reachable: u64)
        requires moment { IsMoment now }
        requires span { reachable < 2 ^ 62 }
        ensures { self.new ≡ confirmed now reachable self.old }
    {
        match self.mac() {
            // INCOMPLETE: an upper layer's advice has no effect.
            None => {}
            // In any other state the entry becomes REACHABLE, for a ReachableTime from now on.
            Some(mac) => {
                let _ = self.learn(mac, true, now + reachable);
            }
        }
    }
}
