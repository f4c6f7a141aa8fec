//! A message gives a link-layer address (RFC 4861, sections 6.2.6, 6.3.4, 7.2.3 and 8.3). The definitions are in `specs/LinkLayerAddress.antt`.

ghost use Rattle.std.specs.Prelude.{IfErr, IfOk, IsErr, OnErr, OnOk, false, length, slice_get, vec_capacity, vec_len, ◌<◌, ◌↔◌, ◌≡◌, ◌≤◌};
ghost use Rattle.nd_addr.specs.Number.{number_of};
ghost use Rattle.nd_table.specs.Moment.{IsMoment};
ghost use Rattle.nd_neighbour.specs.EntryKept.{stale_entry};
ghost use Rattle.nd_neighbour.specs.LinkLayerAddressKept.{given, mark_or};
ghost use Rattle.nd_neighbour.specs.TableKept.{entry_in, Alters};
ghost use Rattle.nd_neighbour.specs.Planned.{IsPlanned};
ghost use Rattle.nd_neighbour.specs.PlaceKept.{Gives, NoPlace};
ghost use Rattle.nd_neighbour.specs.NewsKept.{told_released, told_turned, was_known, was_wanted};

use crate::entry::{Entry, STALE_LIFETIME, Stage, is_same_mac};
use crate::news::Touched;
use crate::place::{enter, has_place};
use crate::refusal::CacheRefusal;
use nd_addr::{Addr, Mac};
use nd_packet::Packets;
use nd_table::{Addressed, Dated, Schedule, locate};
use std::alloc::Allocator;

/// Records the link-layer address that a message gives (RFC 4861, sections 6.2.6, 6.3.4, 7.2.3 and 8.3): changes the existing entry, or adds one
/// that is STALE. Returns `Full` if there is no room for it; the table is unchanged. `near` is where an existing one was found.
pub(crate) fn give_or_enter<A: Allocator>(
    entries: &mut Vec<Entry<A>, A>,
    dates: &mut Schedule<A>,
    limit: usize,
    now: u64,
    addr: Addr,
    mac: Mac,
    mark: Option<bool>,
    near: &mut usize,
) -> Result<Touched<A>, CacheRefusal>
    requires moment { IsMoment now }
    requires few { vec_len entries.old ≤ limit }
    requires capacity { limit ≤ vec_capacity entries.old }
    requires planned { IsPlanned entries.old.items dates.old }
    requires roomy { limit ≤ dates.old.room }
    ensures gives { OnOk result (Gives limit now (number_of addr.0) (λ n. given now (number_of mac.0) mark n) (stale_entry (number_of addr.0) (mark_or mark false) now (number_of mac.0)) entries.old.items entries.new.items) }
    ensures released { IfOk result (λ touched. touched.released ≡ told_released (λ n. given now (number_of mac.0) mark n) (entry_in (number_of addr.0) entries.old.items)) }
    ensures was_known { IfOk result (λ touched. touched.was_known ≡ was_known (entry_in (number_of addr.0) entries.old.items)) }
    ensures was_wanted { IfOk result (λ touched. touched.was_wanted ≡ was_wanted (entry_in (number_of addr.0) entries.old.items)) }
    ensures ends_router { IfOk result (λ touched. touched.ends_router ≡ told_turned (λ n. given now (number_of mac.0) mark n) (entry_in (number_of addr.0) entries.old.items)) }
    ensures full { IsErr result ↔ NoPlace limit now (number_of addr.0) entries.old.items }
    ensures err { IfErr result (λ refusal. refusal ≡ CacheRefusal.Full) }
    ensures same { OnErr result (entries.new.items ≡ entries.old.items) }
    ensures planned { IsPlanned entries.new.items dates.new }
    ensures room { dates.new.room ≡ dates.old.room }
    ensures few { vec_len entries.new ≤ limit }
    ensures capacity { vec_capacity entries.new ≡ vec_capacity entries.old }
{
    let at = match locate(entries, addr) {
        Ok(i) => {
            *near = i;
            return Ok(give(entries, dates, now, addr, i, mac, mark));
        }
        Err(at) => at,
    };
    if !has_place(entries, limit, now) {
        return Err(CacheRefusal::Full);
    }
    let entry = Entry::stale(addr, mark.unwrap_or(false), now, mac);
    enter(entries, dates, limit, now, at, entry);
    Ok(Touched::nothing())
}

/// Records the link-layer address that a message gives for `addr`, whose entry is at place `i`.
pub(crate) fn give<A: Allocator>(
    entries: &mut Vec<Entry<A>, A>,
    dates: &mut Schedule<A>,
    now: u64,
    addr: Addr,
    i: usize,
    mac: Mac,
    mark: Option<bool>,
) -> Touched<A>
    requires moment { IsMoment now }
    requires within { i < length entries.old.items }
    requires found { entry_in (number_of addr.0) entries.old.items ≡ slice_get entries.old.items i }
    requires planned { IsPlanned entries.old.items dates.old }
    ensures alters { Alters (number_of addr.0) (λ n. given now (number_of mac.0) mark n) entries.old.items entries.new.items }
    ensures released { result.released ≡ told_released (λ n. given now (number_of mac.0) mark n) (entry_in (number_of addr.0) entries.old.items) }
    ensures was_known { result.was_known ≡ was_known (entry_in (number_of addr.0) entries.old.items) }
    ensures was_wanted { result.was_wanted ≡ was_wanted (entry_in (number_of addr.0) entries.old.items) }
    ensures ends_router { result.ends_router ≡ told_turned (λ n. given now (number_of mac.0) mark n) (entry_in (number_of addr.0) entries.old.items) }
    ensures planned { IsPlanned entries.new.items dates.new }
    ensures room { dates.new.room ≡ dates.old.room }
    ensures len { vec_len entries.new ≡ vec_len entries.old }
    ensures capacity { vec_capacity entries.new ≡ vec_capacity entries.old }
{
    let entry = &mut entries[i];
    let was = entry.date();
    let was_known = entry.is_known();
    let was_wanted = entry.is_wanted();
    let was_router = entry.router();
    let released = entry.given(now, mac, mark);
    dates.change(was, entry.date(), addr);
    Touched::new(released, was_known, was_wanted, was_router, entry.router())
}

impl<A: Allocator> Entry<A> {
    ghost use Rattle.nd_neighbour.specs.EntryKept.{released, stale_entry};
    ghost use Rattle.nd_neighbour.specs.LinkLayerAddressKept.{given};

    /// Takes its link-layer address from a message (RFC 4861, sections 6.2.6, 6.3.4, 7.2.3 and 8.3). Returns the packets that waited for it.
    pub(crate) fn given(&mut self, now: u64, mac: Mac, mark: Option<bool>) -> Packets<A>
        requires { IsMoment now }
        ensures entry { self.new ≡ given now (number_of mac.0) mark self.old }
        ensures released { result ≡ released self.old self.new }
    {
        // A Router Advertisement and a Redirect to a router say that it is one, a Router Solicitation that it is not.
        if let Some(router) = mark {
            self.router = router;
        }
        match self.mac() {
            // INCOMPLETE: the address is recorded, the entry is STALE, and what waited is sent (7.2.3, 7.3.3).
            None => self.learn(mac, false, now),
            // The address is the known one: the state stays (7.2.3).
            Some(known) if is_same_mac(mac, known) => Packets::none(),
            // Another one replaces it, and the entry is STALE (7.2.3, 6.3.4, 6.2.6, 8.3).
            Some(_) => self.learn(mac, false, now),
        }
    }

    /// Returns an entry whose link-layer address is known and not confirmed (STALE).
    pub(crate) fn stale(addr: Addr, router: bool, now: u64, mac: Mac) -> Self
        requires { IsMoment now }
        ensures { result ≡ stale_entry (number_of addr.0) router now (number_of mac.0) }
    {
        Entry {
            addr,
            router,
            due: now + STALE_LIFETIME,
            stage: Stage::Known {
                mac,
                confirmed: false,
                since: now,
                probing: None,
            },
        }
    }
}
