//! A Neighbor Advertisement is received (RFC 4861, section 7.2.5). The definitions are in `specs/NeighborAdvertisement.antt`.

ghost use Rattle.std.specs.Prelude.{[], if◌then◌else◌, vec_capacity, vec_len, ◌<◌, ◌^◌, ◌||◌, ◌≡◌};
ghost use Rattle.std.specs.Option.{option_map};
ghost use Rattle.nd_addr.specs.Number.{number_of};
ghost use Rattle.nd_table.specs.Moment.{IsMoment};
ghost use Rattle.nd_neighbour.specs.NeighborAdvertisementKept.{advertised};
ghost use Rattle.nd_neighbour.specs.TableKept.{entry_in, Alters};
ghost use Rattle.nd_neighbour.specs.Planned.{IsPlanned};
ghost use Rattle.nd_neighbour.specs.NewsKept.{told_released, told_turned, was_known, was_wanted};

use crate::entry::{Entry, is_same_mac};
use crate::news::{Flags, Touched};
use nd_addr::{Addr, Mac};
use nd_packet::Packets;
use nd_table::{Dated, Schedule, find};
use std::alloc::Allocator;

/// Takes a received Neighbor Advertisement (RFC 4861, section 7.2.5). If there is no entry the advertisement is discarded, and adds none.
pub(crate) fn advertise<A: Allocator>(
    entries: &mut Vec<Entry<A>, A>,
    dates: &mut Schedule<A>,
    now: u64,
    addr: Addr,
    flags: Flags,
    mac: Option<Mac>,
    reachable: u64,
) -> Touched<A>
    requires moment { IsMoment now }
    requires span { reachable < 2 ^ 62 }
    requires planned { IsPlanned entries.old.items dates.old }
    ensures alters { Alters (number_of addr.0) (λ n. advertised now flags (option_map (λ m. number_of m.0) mac) reachable n) entries.old.items entries.new.items }
    ensures released { result.released ≡ told_released (λ n. advertised now flags (option_map (λ m. number_of m.0) mac) reachable n) (entry_in (number_of addr.0) entries.old.items) }
    ensures was_known { result.was_known ≡ was_known (entry_in (number_of addr.0) entries.old.items) }
    ensures was_wanted { result.was_wanted ≡ was_wanted (entry_in (number_of addr.0) entries.old.items) }
    ensures ends_router { result.ends_router ≡ told_turned (λ n. advertised now flags (option_map (λ m. number_of m.0) mac) reachable n) (entry_in (number_of addr.0) entries.old.items) }
    ensures planned { IsPlanned entries.new.items dates.new }
    ensures room { dates.new.room ≡ dates.old.room }
    ensures len { vec_len entries.new ≡ vec_len entries.old }
    ensures capacity { vec_capacity entries.new ≡ vec_capacity entries.old }
{
    let Some(i) = find(entries, addr) else {
        return Touched::nothing();
    };
    let entry = &mut entries[i];
    let was = entry.date();
    let was_known = entry.is_known();
    let was_wanted = entry.is_wanted();
    let was_router = entry.router();
    let released = entry.advertised(now, flags, mac, reachable);
    dates.change(was, entry.date(), addr);
    Touched::new(released, was_known, was_wanted, was_router, entry.router())
}

impl<A: Allocator> Entry<A> {
    ghost use Rattle.nd_neighbour.specs.EntryKept.{released, waiting_in};
    ghost use Rattle.nd_neighbour.specs.NeighborAdvertisementKept.{advertised, conforming};

    /// Takes a Neighbor Advertisement for it (RFC 4861, section 7.2.5), and returns the packets that it releases. Only an INCOMPLETE entry has no
    /// address.
    pub(crate) fn advertised(
        &mut self,
        now: u64,
        flags: Flags,
        mac: Option<Mac>,
        reachable: u64,
    ) -> Packets<A>
        requires moment { IsMoment now }
        requires span { reachable < 2 ^ 62 }
        ensures entry { self.new ≡ advertised now flags (option_map (λ mac. number_of mac.0) mac) reachable self.old }
        ensures released { result ≡ released self.old self.new }
    {
        match (self.mac(), mac) {
            // INCOMPLETE, and the advertisement gives no address: it is discarded.
            (None, None) => Packets::none(),
            // INCOMPLETE: the address is recorded, with Override set or clear, and what waited is sent.
            (None, Some(first)) => self.conform(now, flags, first, true, reachable),
            // II: the advertisement gives no address.
            (Some(known), None) => self.conform(now, flags, known, false, reachable),
            // II: the address is the known one.
            (Some(known), Some(given)) if is_same_mac(given, known) => {
                self.conform(now, flags, known, false, reachable)
            }
            // II: Override is set, so another address replaces the known one.
            (Some(_), Some(other)) if flags.overrides => {
                self.conform(now, flags, other, true, reachable)
            }
            // I a: Override is clear: another address makes a REACHABLE entry STALE, and changes nothing else.
            (Some(known), Some(_)) if self.is_reachable(now) => self.learn(known, false, now),
            // I b: in any other state it is ignored.
            (Some(_), Some(_)) => Packets::none(),
        }
    }

    /// Applies an advertisement, with this address (RFC 4861, section 7.2.5, INCOMPLETE and II).
    fn conform(
        &mut self,
        now: u64,
        flags: Flags,
        mac: Mac,
        is_new: bool,
        reachable: u64,
    ) -> Packets<A>
        requires moment { IsMoment now }
        requires span { reachable < 2 ^ 62 }
        ensures entry { self.new ≡ conforming flags now reachable (number_of mac.0) is_new self.old }
        ensures released { result ≡ (if flags.solicited || is_new then waiting_in self.old.stage else []) }
    {
        // IsRouter is set by the R flag.
        self.router = flags.router;
        // Solicited: the entry is REACHABLE.
        if flags.solicited {
            return self.learn(mac, true, now + reachable);
        }
        // Not solicited, and the address is new: the entry is STALE.
        if is_new {
            return self.learn(mac, false, now);
        }
        // Otherwise its state stays.
        Packets::none()
    }
}
