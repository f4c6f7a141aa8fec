//! What messages say of neighbours. The definitions are in `specs/News.antt`.

ghost use Rattle.std.specs.Prelude.{IfErr, IfOk, IfSome, IsErr, OnErr, OnOk, [], false, is_some, not, true, vec_capacity, vec_len, ◌&&◌, ◌<◌, ◌^◌, ◌↔◌, ◌≡◌, length, ◌≤◌, ◌+◌, ℕ, if◌then◌else◌};
ghost use Rattle.nd_addr.specs.Bytes.{AreBytes};
ghost use Rattle.nd_addr.specs.Number.{number_of};
ghost use Rattle.nd_packet.specs.Waiting.{max_waiting};
ghost use Rattle.nd_table.specs.Moment.{IsMoment};
ghost use Rattle.nd_neighbour.specs.EntryKept.{with_mark};
ghost use Rattle.nd_neighbour.specs.Rings.{RoomWithin};
ghost use Rattle.nd_neighbour.specs.TableKept.{entry_in, Alters, Rises};
ghost use Rattle.nd_neighbour.specs.NewsKept.{told_at, told_released, told_turned, was_known, was_wanted};

use crate::cache::Cache;
use crate::entry::Entry;
use crate::link_layer_address::give_or_enter;
use crate::neighbor_advertisement::advertise;
use crate::refusal::CacheRefusal;
use nd_addr::{Addr, Mac};
use nd_packet::Packets;
use nd_table::find;
use std::alloc::Allocator;

/// The flags of a Neighbor Advertisement (RFC 4861, section 4.4).
#[derive(Clone, Copy, Debug, PartialEq, Eq)]
pub struct Flags {
    /// R: the sender is a router.
    pub router: bool,
    /// S: the advertisement answers a solicitation.
    pub solicited: bool,
    /// O: the link-layer address in it replaces the known one.
    pub overrides: bool,
}

/// What a message says of a neighbour.
#[derive(Clone, Copy, Debug, PartialEq, Eq)]
pub enum News {
    /// Its link-layer address, in a Router Solicitation, a Router Advertisement, a Neighbor Solicitation or a
    /// Redirect, and what the message says of IsRouter, if it does (RFC 4861, sections 6.2.6, 6.3.4, 7.2.3, 8.3).
    Given {
        addr: Addr,
        mac: Mac,
        mark: Option<bool>,
    },
    /// A Neighbor Advertisement, with the link-layer address that it gives (RFC 4861, section 7.2.5).
    Advert {
        addr: Addr,
        flags: Flags,
        mac: Option<Mac>,
    },
    /// What a message without a link-layer address says of IsRouter (RFC 4861, sections 6.2.6, 6.3.4 and 8.3).
    Marked {
        addr: Addr,
        router: bool,
    },
}

impl News {
    ghost use Rattle.nd_neighbour.specs.News.{mac_given};

    /// Returns the link-layer address that the message gives, if it does. The packets that `heard` releases go there.
    pub fn mac(&self) -> Option<Mac>
        ensures value { result ≡ mac_given self.now }
        ensures bytes { IfSome result (λ mac. AreBytes 6 mac.0) }
    {
        let given = match self {
            News::Given { mac, .. } => Some(*mac),
            News::Advert { mac, .. } => *mac,
            News::Marked { .. } => None,
        };
        if let Some(mac) = &given {
            mac.as_bytes();
        }
        given
    }
}

/// The times in force when a call is made (RFC 4861, section 6.3.2).
#[derive(Clone, Copy, Debug, PartialEq, Eq)]
pub struct Times {
    /// RetransTimer: the time between two solicitations, in milliseconds.
    pub retrans: u32,
    /// ReachableTime: how long a confirmation holds, in milliseconds.
    pub reachable: u64,
}

/// What news of a neighbour result in.
#[derive(Drop)]
pub struct Touched<A: Allocator> {
    /// The packets that waited for its link-layer address and can be sent now.
    pub released: Packets<A>,
    /// Its link-layer address was known before.
    pub was_known: bool,
    /// A caller waited for its link-layer address. If the news give one, it is known now.
    pub was_wanted: bool,
    /// It was a router, and no longer is: it must leave the list of default routers (RFC 4861, section 7.2.5).
    pub ends_router: bool,
}

impl<A: Allocator> Touched<A> {
    pub(crate) fn new(
        released: Packets<A>,
        was_known: bool,
        was_wanted: bool,
        was_router: bool,
        is_router: bool,
    ) -> Self
        ensures released { result.released ≡ released }
        ensures was_known { result.was_known ≡ was_known }
        ensures was_wanted { result.was_wanted ≡ was_wanted }
        ensures ends_router { result.ends_router ≡ (was_router && not is_router) }
    {
        Touched {
            released,
            was_known,
            was_wanted,
            ends_router: was_router && !is_router,
        }
    }

    pub(crate) fn nothing() -> Self
        ensures released { result.released ≡ [] }
        ensures was_known { result.was_known ≡ false }
        ensures was_wanted { result.was_wanted ≡ false }
        ensures ends_router { result.ends_router ≡ false }
    {
        Touched {
            released: Packets::none(),
            was_known: false,
            was_wanted: false,
            ends_router: false,
        }
    }
}

impl<A: Allocator> Cache<A> {
    ghost use Rattle.nd_neighbour.specs.Removal.{waiting_at};
    ghost use Rattle.nd_neighbour.specs.TableKept.{entry_in};
    ghost use Rattle.nd_neighbour.specs.PlaceKept.{NoPlace};
    ghost use Rattle.nd_neighbour.specs.News.{lets_enter, news_key, news_row};
    ghost use Rattle.nd_neighbour.specs.NewsKept.{GainsNews, Tells, was_known, was_wanted};

    /// Takes what a message says of a neighbour (RFC 4861, sections 6.2.6, 6.3.4, 7.2.3, 7.2.5 and 8.3). Only a given address adds an entry; other
    /// news of a neighbour without an entry change nothing. Of `times` only ReachableTime counts, and only if a solicited advertisement confirms.
    /// It takes no memory.
    ///
    /// Returns `Full` if the message gives an address, the neighbour is new, the table is full and no neighbour is STALE; nothing has changed then.
    pub fn heard(&mut self, now: u64, news: News, times: Times) -> Result<Touched<A>, CacheRefusal>
        requires moment { IsMoment now }
        requires span { times.reachable < 2 ^ 62 }

        ensures stands { OnOk result (GainsNews self.old.limit now news times self.old.entries self.new.entries) }
        ensures told { IfOk result (λ touched. Tells now (news_key news) (news_row news times) self.old.entries touched.released touched.ends_router touched.was_wanted) }

        ensures was_known { IfOk result (λ touched. touched.was_known ≡ was_known (entry_in (news_key news) self.old.entries)) }
        ensures was_wanted { IfOk result (λ touched. touched.was_wanted ≡ was_wanted (entry_in (news_key news) self.old.entries)) }

        // No more packets are released than waited for that neighbour.
        ensures few { IfOk result (λ touched. length touched.released ≤ length (waiting_at (entry_in (news_key news) self.old.entries))) }

        // It is refused exactly if there is no room for a new neighbour, and only for that.
        ensures full { IsErr result ↔ ((lets_enter news ≡ true) × NoPlace self.old.limit now (news_key news) self.old.entries) }
        ensures err { IfErr result (λ refusal. refusal ≡ CacheRefusal.Full) }
        ensures same { OnErr result (self.new ≡ self.old) }

        // A neighbour whose address is given has an entry, so a use of it isn't refused as full.
        ensures there { OnOk result (lets_enter news ≡ true → is_some (entry_in (news_key news) self.new.entries) ≡ true) }

        ensures limit { self.new.limit ≡ self.old.limit }
        ensures rings { self.new.rings ≡ self.old.rings }
        ensures waiting { self.new.waiting ≡ self.old.waiting }
    {
        match news {
            News::Given { addr, mac, mark } => {
                give_or_enter(
                    &mut self.entries,
                    &mut self.dates,
                    self.limit,
                    now,
                    addr,
                    mac,
                    mark,
                    &mut self.near,
                )
            }
            News::Advert { addr, flags, mac } => {
                Ok(advertise(
                    &mut self.entries,
                    &mut self.dates,
                    now,
                    addr,
                    flags,
                    mac,
                    times.reachable,
                ))
            }
            News::Marked { addr, router } => Ok(mark(&mut self.entries, addr, router)),
        }
    }
}

impl<A: Allocator> Cache<A> {
    ghost use Rattle.nd_neighbour.specs.NewsKept.{told_at};
    ghost use Rattle.nd_neighbour.specs.TableKept.{entry_in};

    /// Returns the number of rows that tell that a neighbour's link-layer address is known, if news give it: one for each packet that waits, and one
    /// if a caller waits.
    pub fn told_at(&self, addr: Addr) -> usize
        ensures value { result ≡ told_at (entry_in (number_of addr.0) self.now.entries) }
        ensures few { result ≤ max_waiting + 1 }
        ensures limit { result ≤ self.now.waiting + 1 }
    {
        count_told(&self.entries, addr)
    }
}

/// Returns the number of rows that tell that a neighbour's link-layer address is known. The neighbour may have no entry.
fn count_told<A: Allocator>(entries: &[Entry<A>], addr: Addr) -> usize
    requires { Rises entries.now }
    ensures few { result ≤ max_waiting + 1 }
    ensures limit { (room : ℕ) → RoomWithin room entries.now → result ≤ room + 1 }
    ensures value { result ≡ told_at (entry_in (number_of addr.0) entries.now) }
{
    match find(entries, addr) {
        Some(i) => entries[i].told(),
        None => 0,
    }
}

/// Takes a message without a link-layer address, which says whether a neighbour is a router (RFC 4861, sections 6.2.6, 6.3.4 and 8.3): sets
/// IsRouter if there is an entry.
pub(crate) fn mark<A: Allocator>(
    entries: &mut Vec<Entry<A>, A>,
    addr: Addr,
    router: bool,
) -> Touched<A>
    requires { Rises entries.old.items }
    ensures alters { Alters (number_of addr.0) (λ n. with_mark router n) entries.old.items entries.new.items }
    ensures released { result.released ≡ told_released (λ n. with_mark router n) (entry_in (number_of addr.0) entries.old.items) }
    ensures was_known { result.was_known ≡ was_known (entry_in (number_of addr.0) entries.old.items) }
    ensures was_wanted { result.was_wanted ≡ was_wanted (entry_in (number_of addr.0) entries.old.items) }
    ensures ends_router { result.ends_router ≡ told_turned (λ n. with_mark router n) (entry_in (number_of addr.0) entries.old.items) }
    ensures len { vec_len entries.new ≡ vec_len entries.old }
    ensures capacity { vec_capacity entries.new ≡ vec_capacity entries.old }
{
    let Some(i) = find(entries, addr) else {
        return Touched::nothing();
    };
    let entry = &mut entries[i];
    let was_known = entry.is_known();
    let was_wanted = entry.is_wanted();
    let was_router = entry.router();
    entry.mark(router);
    Touched::new(
        Packets::none(),
        was_known,
        was_wanted,
        was_router,
        entry.router(),
    )
}

impl<A: Allocator> Entry<A> {
    ghost use Rattle.nd_neighbour.specs.EntryKept.{is_wanted, waiting_in, with_mark};
    ghost use Rattle.nd_neighbour.specs.Rings.{room_of};

    /// Returns the number of rows that tell that its link-layer address is known.
    fn told(&self) -> usize
        ensures value { result ≡ length (waiting_in self.now.stage) + (if is_wanted self.now.stage then 1 else 0) }
        ensures few { result ≤ max_waiting + 1 }
        ensures room { result ≤ room_of self.now.stage + 1 }
    {
        self.waiting() + usize::from(self.is_wanted())
    }

    /// Takes from a message whether it is a router.
    pub(crate) fn mark(&mut self, router: bool)
        ensures { self.new ≡ with_mark router self.old }
    {
        self.router = router;
    }
}
