//! The place of a new entry, and the entry that is evicted for it. The definitions are in `specs/Place.antt`.

ghost use Rattle.std.specs.Prelude.{IfSome, None, length, slice_get, true, vec_capacity, vec_len, ◌<◌, ◌≡◌, ◌≤◌};
ghost use Rattle.nd_neighbour.specs.Planned.{IsPlanned};
ghost use Rattle.nd_addr.specs.Number.{number_of};
ghost use Rattle.nd_neighbour.specs.TableKept.{entry_in, place_in};
ghost use Rattle.nd_neighbour.specs.PlaceKept.{Enters, Places, has_place, longer, picked, picked_stale, stalest};

use crate::entry::{Entry, Stage};
use nd_addr::Addr;
use nd_table::{Addressed, Dated, Schedule, put};
use std::alloc::Allocator;

/// Returns the place of the one of two entries that has been stale for longer, at a tie that of the first.
fn pick<A: Allocator>(
    entries: &[Entry<A>],
    best: Option<usize>,
    i: usize,
    now: u64,
) -> Option<usize>
    requires best_within { IfSome best (λ j. j < length entries.now) }
    requires within { i < length entries.now }
    ensures within { IfSome result (λ j. j < length entries.now) }
    ensures longer { picked entries.now result ≡ longer (picked entries.now best) (picked_stale now (slice_get entries.now i)) }
{
    if !entries[i].is_stale(now) {
        return best;
    }
    match best {
        None => Some(i),
        Some(j) if entries[i].since() < entries[j].since() => Some(i),
        Some(j) => Some(j),
    }
}

/// Returns the place of the entry that has been stale for longest, at a tie that of the lowest address.
pub(crate) fn stalest<A: Allocator>(entries: &[Entry<A>], now: u64) -> Option<usize>
    ensures within { IfSome result (λ i. i < length entries.now) }
    ensures stalest { picked entries.now result ≡ stalest now entries.now }
{
    let mut best = None;
    for i in 0..entries.len() {
        best = pick(entries, best, i, now);
    }
    best
}

/// Returns true if there is room for one more entry, or an entry that can be evicted.
pub(crate) fn has_place<A: Allocator>(entries: &[Entry<A>], limit: usize, now: u64) -> bool
    ensures { result ≡ has_place limit now entries.now }
{
    entries.len() < limit || stalest(entries, now).is_some()
}

/// Makes room for an entry of `addr`, which belongs at place `at`, and returns the place where it belongs then. If the table is full,
/// the entry that has been STALE for longest is evicted. Our choice: RFC 4861, section 5.3, leaves it open.
pub(crate) fn make_place<A: Allocator>(
    entries: &mut Vec<Entry<A>, A>,
    dates: &mut Schedule<A>,
    limit: usize,
    now: u64,
    addr: Addr,
    at: usize,
) -> usize
    requires absent { entry_in (number_of addr.0) entries.old.items ≡ None }
    requires at { at ≡ place_in (number_of addr.0) entries.old.items }
    requires planned { IsPlanned entries.old.items dates.old }
    requires few { vec_len entries.old ≤ limit }
    requires place { has_place limit now entries.old.items ≡ true }
    ensures places { Places limit now entries.old.items entries.new.items }
    ensures left { vec_len entries.new < limit }
    ensures at { result ≡ place_in (number_of addr.0) entries.new.items }
    ensures planned { IsPlanned entries.new.items dates.new }
    ensures room { dates.new.room ≡ dates.old.room }
    ensures capacity { vec_capacity entries.new ≡ vec_capacity entries.old }
{
    if entries.len() < limit {
        return at;
    }
    let Some(i) = stalest(entries, now) else {
        unreachable!()
    };
    let place = if i < at { at - 1 } else { at };
    let gone = entries.remove(i);
    dates.change(gone.date(), None, gone.addr());
    place
}

/// Adds an entry whose address has none, and which belongs at place `at`. There is room for it, or an entry that can be evicted.
pub(crate) fn enter<A: Allocator>(
    entries: &mut Vec<Entry<A>, A>,
    dates: &mut Schedule<A>,
    limit: usize,
    now: u64,
    at: usize,
    entry: Entry<A>,
)
    requires absent { entry_in entry.key entries.old.items ≡ None }
    requires at { at ≡ place_in entry.key entries.old.items }
    requires place { has_place limit now entries.old.items ≡ true }
    requires few { vec_len entries.old ≤ limit }
    requires capacity { limit ≤ vec_capacity entries.old }
    requires planned { IsPlanned entries.old.items dates.old }
    requires roomy { limit ≤ dates.old.room }
    ensures enters { Enters limit now entry entries.old.items entries.new.items }
    ensures planned { IsPlanned entries.new.items dates.new }
    ensures room { dates.new.room ≡ dates.old.room }
    ensures few { vec_len entries.new ≤ limit }
    ensures capacity { vec_capacity entries.new ≡ vec_capacity entries.old }
{
    let addr = entry.addr();
    let date = entry.date();
    let at = make_place(entries, dates, limit, now, addr, at);
    put(entries, at, entry);
    dates.change(None, date, addr);
}

impl<A: Allocator> Entry<A> {
    ghost use Rattle.nd_neighbour.specs.PlaceKept.{is_stale, since_of};

    /// Returns true if it is STALE at `now`, in milliseconds.
    pub(crate) fn is_stale(&self, now: u64) -> bool
        ensures { result ≡ is_stale self.now.stage now }
    {
        match &self.stage {
            // INCOMPLETE.
            Stage::Resolving { .. } => false,
            // Neither DELAY nor PROBE, and not REACHABLE.
            Stage::Known {
                confirmed,
                since,
                probing,
                ..
            } => probing.is_none() && !(*confirmed && now < *since),
        }
    }

    /// Returns the moment since which it isn't known to be reachable, in milliseconds.
    pub(crate) fn since(&self) -> u64
        ensures { result ≡ since_of self.now.stage }
    {
        match &self.stage {
            Stage::Resolving { .. } => 0,
            Stage::Known { since, .. } => *since,
        }
    }
}
