//! A caller that keeps its packets wants the link-layer address of a neighbour (RFC 4861, sections 7.2.2 and 7.3.3). The definitions are in
//! `specs/Wanting.antt`.

ghost use Rattle.std.specs.Prelude.{IfOk, List, None, OnErr, OnOk, Result, Some, Err, if◌then◌else◌, is_some, length, slice_get, true, vec_capacity, vec_len, ◌-◌, ◌<◌, ◌≤◌, ◌↔◌, ◌≡◌};
ghost use Rattle.nd_addr.specs.Number.{number_of};
ghost use Rattle.nd_table.specs.Moment.{IsMoment};
ghost use Rattle.nd_neighbour.specs.TableKept.{entry_in, place_in, Alters};
ghost use Rattle.nd_neighbour.specs.Planned.{IsPlanned};
ghost use Rattle.nd_neighbour.specs.PlaceKept.{Gives, has_place};
ghost use Rattle.nd_neighbour.specs.View.{wanting_of};
ghost use Rattle.nd_neighbour.specs.WantingKept.{wanting_in, wished, wished_entry};

use crate::cache::Cache;
use crate::entry::{Entry, Stage};
use crate::news::Times;
use crate::place::{enter, has_place};
use crate::refusal::CacheRefusal;
use crate::unreachability_detection::Probing;
use nd_addr::{Addr, Mac};
use nd_packet::Ring;
use nd_table::{Dated, Schedule, locate_near};
use std::alloc::Allocator;

/// What becomes of the wish for a neighbour's link-layer address.
#[derive(Clone, Copy, Debug, PartialEq, Eq)]
pub enum Want {
    /// It is known, and the neighbour is used.
    Known(Mac),
    /// The caller waits until it is known (RFC 4861, section 7.2.2).
    Waits {
        /// A first solicitation must be sent now.
        solicit: bool,
    },
}

impl<A: Allocator + Clone> Cache<A> {
    ghost use Rattle.nd_neighbour.specs.History.{Row, story};
    ghost use Rattle.nd_neighbour.specs.LeaseKept.{LeavesMacs};
    ghost use Rattle.nd_neighbour.specs.TableKept.{Stands, entry_in};
    ghost use Rattle.nd_neighbour.specs.PlaceKept.{NoPlace};
    ghost use Rattle.nd_neighbour.specs.Story.{is_present, mac_of};
    ghost use Rattle.nd_neighbour.specs.Wanting.{wanting_by};
    ghost use Rattle.nd_neighbour.specs.WantingKept.{GainsWish, wanting_in};
    ghost use Rattle.nd_neighbour.specs.View.{wanting_of};

    /// Returns what becomes of the wish for a neighbour's link-layer address, by a caller that keeps its packets (RFC 4861, sections 7.2.2 and 7.3.3): it
    /// is known, and this is a use of the neighbour, or the caller waits for it, and the first wish or packet begins a resolution. Of `times` only
    /// RetransTimer counts, and only if a resolution or probing begins.
    ///
    /// Returns `Full` if the neighbour is new, the table is full and no neighbour is STALE, and `Memory` if it is new, no ring that `ready` makes is in
    /// reserve, and the allocator refuses one. Nothing has changed then.
    pub fn want(&mut self, now: u64, addr: Addr, times: Times) -> Result<Want, CacheRefusal>
        requires { IsMoment now }

        ensures stands { OnOk result (GainsWish self.old.limit now (number_of addr.0) times.retrans self.old.waiting self.old.entries self.new.entries) }
        ensures value { IfOk result (λ want. wanting_of want ≡ wanting_in (entry_in (number_of addr.0) self.old.entries)) }
        ensures history { IfOk result (λ want. (history : List Row) → Stands self.old.entries history → wanting_of want ≡ wanting_by (is_present (story (number_of addr.0) history)) (mac_of (story (number_of addr.0) history))) }

        // `Full` is returned exactly if there is no room for a new neighbour, and `Memory` only if one needs a ring and none is in reserve.
        ensures full { (result ≡ Err CacheRefusal.Full) ↔ NoPlace self.old.limit now (number_of addr.0) self.old.entries }
        ensures memory { result ≡ Err CacheRefusal.Memory → (self.old.rings ≡ 0) × (entry_in (number_of addr.0) self.old.entries ≡ None) }
        ensures same { OnErr result (self.new ≡ self.old) }

        // The wish for a neighbour that has an entry leaves all link-layer addresses.
        ensures macs { OnOk result (is_some (entry_in (number_of addr.0) self.old.entries) ≡ true → LeavesMacs self.old.entries self.new.entries) }

        ensures limit { self.new.limit ≡ self.old.limit }
        ensures waiting { self.new.waiting ≡ self.old.waiting }

        // Only a new neighbour takes a ring, one in reserve if there is one.
        ensures rings { OnOk result (self.new.rings ≡ (if is_some (entry_in (number_of addr.0) self.old.entries) then self.old.rings else self.old.rings - 1)) }
    {
        let at = match locate_near(&self.entries, addr, self.near) {
            Ok(i) => {
                return Ok(wish(
                    &mut self.entries,
                    &mut self.dates,
                    now,
                    addr,
                    i,
                    times.retrans,
                ));
            }
            Err(at) => at,
        };
        if !has_place(&self.entries, self.limit, now) {
            return Err(CacheRefusal::Full);
        }
        let ring = match self.rings.take_or_make(self.entries.allocator()) {
            Ok(ring) => ring,
            Err(_) => return Err(CacheRefusal::Memory),
        };
        begin_wished(
            &mut self.entries,
            &mut self.dates,
            self.limit,
            now,
            addr,
            at,
            times.retrans,
            ring,
        );
        Ok(Want::Waits { solicit: true })
    }
}

/// Returns what becomes of the wish for the link-layer address of the neighbour whose entry is at place `i`.
pub(crate) fn wish<A: Allocator>(
    entries: &mut Vec<Entry<A>, A>,
    dates: &mut Schedule<A>,
    now: u64,
    addr: Addr,
    i: usize,
    retrans: u32,
) -> Want
    requires moment { IsMoment now }
    requires planned { IsPlanned entries.old.items dates.old }
    requires within { i < length entries.old.items }
    requires found { entry_in (number_of addr.0) entries.old.items ≡ slice_get entries.old.items i }
    ensures alters { Alters (number_of addr.0) (λ n. wished now retrans n) entries.old.items entries.new.items }
    ensures want { wanting_of result ≡ wanting_in (entry_in (number_of addr.0) entries.old.items) }
    ensures planned { IsPlanned entries.new.items dates.new }
    ensures room { dates.new.room ≡ dates.old.room }
    ensures len { vec_len entries.new ≡ vec_len entries.old }
    ensures capacity { vec_capacity entries.new ≡ vec_capacity entries.old }
{
    let entry = &mut entries[i];
    let was = entry.date();
    let want = entry.want(now, retrans);
    dates.change(was, entry.date(), addr);
    want
}

/// Begins a resolution for which a caller waits, for an address that has no entry; its entry belongs at place `at` (RFC 4861, section 7.2.2).
pub(crate) fn begin_wished<A: Allocator>(
    entries: &mut Vec<Entry<A>, A>,
    dates: &mut Schedule<A>,
    limit: usize,
    now: u64,
    addr: Addr,
    at: usize,
    retrans: u32,
    ring: Ring<A>,
)
    requires moment { IsMoment now }
    requires absent { entry_in (number_of addr.0) entries.old.items ≡ None }
    requires at { at ≡ place_in (number_of addr.0) entries.old.items }
    requires place { has_place limit now entries.old.items ≡ true }
    requires few { vec_len entries.old ≤ limit }
    requires capacity { limit ≤ vec_capacity entries.old }
    requires planned { IsPlanned entries.old.items dates.old }
    requires roomy { limit ≤ dates.old.room }
    ensures gives { Gives limit now (number_of addr.0) (λ n. wished now retrans n) (wished_entry (number_of addr.0) now retrans ring.waiting.room) entries.old.items entries.new.items }
    ensures planned { IsPlanned entries.new.items dates.new }
    ensures room { dates.new.room ≡ dates.old.room }
    ensures few { vec_len entries.new ≤ limit }
    ensures capacity { vec_capacity entries.new ≡ vec_capacity entries.old }
{
    let entry = Entry::wished(addr, now, retrans, ring);
    enter(entries, dates, limit, now, at, entry);
}

impl<A: Allocator> Entry<A> {
    ghost use Rattle.nd_neighbour.specs.View.{wanting_of};
    ghost use Rattle.nd_neighbour.specs.WantingKept.{wanting_to, wished, wished_entry};

    /// Returns an entry whose resolution begins now (INCOMPLETE), for which a caller waits. The first solicitation is sent now, the next is due a
    /// RetransTimer later (RFC 4861, section 7.2.2).
    pub(crate) fn wished(addr: Addr, now: u64, retrans: u32, ring: Ring<A>) -> Self
        requires { IsMoment now }
        ensures { result ≡ wished_entry (number_of addr.0) now retrans ring.waiting.room }
    {
        Entry {
            addr,
            router: false,
            due: now + u64::from(retrans),
            stage: Stage::Resolving {
                sent: 0,
                wanted: true,
                retrans,
                waiting: ring.empty(),
            },
        }
    }

    /// Takes the wish for its link-layer address (RFC 4861, sections 7.2.2 and 7.3.3).
    pub(crate) fn want(&mut self, now: u64, retrans: u32) -> Want
        requires { IsMoment now }
        ensures entry { self.new ≡ wished now retrans self.old }
        ensures want { wanting_of result ≡ wanting_to self.old.stage }
    {
        match &mut self.stage {
            // INCOMPLETE: the caller waits (7.2.2).
            Stage::Resolving { wanted, .. } => {
                *wanted = true;
                Want::Waits { solicit: false }
            }
            // Otherwise this is a use (7.3.3).
            Stage::Known {
                mac,
                since,
                probing,
                ..
            } => {
                if probing.is_none() && *since <= now {
                    let begun = Probing::after_use(now, retrans);
                    self.due = begun.from;
                    *probing = Some(begun);
                }
                Want::Known(*mac)
            }
        }
    }
}
