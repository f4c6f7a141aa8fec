ghost use Rattle.std.specs.Prelude.{◌<◌, ◌^◌};

use nd_addr::{Addr, Mac};
use nd_neighbour::*;
use std::alloc::Global;
use std::process::Abort;
use std::test::*;

const MAC: Mac = Mac([2, 0, 0, 0, 0, 1]);

const OTHER_MAC: Mac = Mac([2, 0, 0, 0, 0, 2]);

/// RetransTimer of a second, ReachableTime of 15 seconds.
const TIMES: Times = Times {
    retrans: 1000,
    reachable: 15_000,
};

/// fe80::n.
fn addr(n: u16) -> Addr {
    let [high, low] = n.to_be_bytes();
    Addr([0xfe, 0x80, 0, 0, 0, 0, 0, 0, 0, 0, 0, 0, 0, 0, high, low])
}

/// An Ethernet header, all of whose bytes are this one.
fn packet(rt: &(impl Abort + AllocGlobal), byte: u8) -> Packet<Global> {
    let mut frame = Vec::with_capacity(rt.alloc(), 14).expect(rt, "memory");
    frame.extend_from_slice(&[byte; 14]).expect(rt, "memory");
    Packet::new(frame).expect(rt, "too short")
}

fn state(cache: &Cache<Global>, now: u64, a: Addr) -> Option<Reachability> {
    cache.entry(now, a).map(|neighbour| neighbour.state)
}

/// Returns `Some` if the packet waits and replaced none, with true if a solicitation is sent.
fn is_queued(sent: Result<Use<Global>, (CacheRefusal, Packet<Global>)>) -> Option<bool> {
    match sent {
        Ok(
            Use::Queued {
                solicit,
                replaced: None,
            },
        ) => Some(solicit),
        _ => None,
    }
}

/// The first byte of a packet, or 0.
fn byte_of(packet: &Packet<Global>) -> u8 {
    packet.as_bytes().first().copied().unwrap_or(0)
}

/// Why a packet is refused, and its first byte.
fn refusal(
    sent: Result<Use<Global>, (CacheRefusal, Packet<Global>)>,
) -> Option<(CacheRefusal, u8)> {
    match sent {
        Ok(_) => None,
        Err((why, packet)) => Some((why, byte_of(&packet))),
    }
}

fn given(n: u16) -> News {
    News::Given {
        addr: addr(n),
        mac: MAC,
        mark: None,
    }
}

/// The address of a neighbour is given.
fn is_given(rt: &impl Abort, cache: &mut Cache<Global>, now: u64, n: u16)
    requires { now < 2 ^ 62 }
{
    assert!(rt; cache.heard(now, given(n), TIMES).is_ok());
}

#[test]
fn the_513th_neighbour_pushes_out_the_one_stale_for_longest(rt: HostRuntime) {
    let mut cache = Cache::new(rt.alloc(), 512, 3).expect(&rt, "memory");
    for n in 0..512u16 {
        is_given(&rt, &mut cache, u64::from(n), n);
    }
    is_given(&rt, &mut cache, 1000, 512);
    assert!(rt; cache.entry(1000, addr(0)) == None);
    assert!(rt; state(&cache, 1000, addr(1)) == Some(Reachability::Stale));
    assert!(rt; state(&cache, 1000, addr(512)) == Some(Reachability::Stale));
    assert!(rt; cache.len() == 512);
}

#[test]
fn the_513th_neighbour_is_full_where_none_is_stale(rt: HostRuntime) {
    let mut cache = Cache::new(rt.alloc(), 512, 3).expect(&rt, "memory");
    for n in 0..512u16 {
        is_given(&rt, &mut cache, u64::from(n), n);
        cache.confirmed(999, addr(n), 15_000);
    }
    assert!(rt; cache.heard(1000, given(512), TIMES).is_err());
    let sent = cache.used(1000, addr(512), packet(&rt, 9), TIMES);
    assert!(rt; refusal(sent) == Some((CacheRefusal::Full, 9)));
    assert!(rt; state(&cache, 1000, addr(0)) == Some(Reachability::Reachable));
    assert!(rt; cache.len() == 512);
    assert!(rt; cache.entry(1000, addr(512)) == None);
}

#[test]
fn a_confirmation_that_ends_a_lease_earlier_says_so(rt: HostRuntime) {
    let mut cache = Cache::new(rt.alloc(), 4, 3).expect(&rt, "memory");
    is_given(&rt, &mut cache, 1000, 1);
    assert!(rt; cache.confirmed(1000, addr(2), 15_000));
    assert!(rt; cache.confirmed(1000, addr(1), 15_000));
    assert!(rt; cache.confirmed(2000, addr(1), 14_000));
    assert!(rt; !cache.confirmed(2001, addr(1), 13_998));
    let _ = cache.used(16_000, addr(1), packet(&rt, 9), TIMES);
    assert!(rt; state(&cache, 16_000, addr(1)) == Some(Reachability::Delay));
    assert!(rt; !cache.confirmed(16_001, addr(1), 4998));
    let _ = cache.used(21_000, addr(1), packet(&rt, 9), TIMES);
    assert!(rt; cache.confirmed(21_001, addr(1), 4999));
}

/// The address that an advertisement gives, besides the known one.
#[derive(Clone, Copy, Debug, PartialEq, Eq)]
enum Gives {
    No,
    Same,
    Other,
}

/// What an advertisement makes of an entry: its flags S and O, the address that it gives, the state afterwards (None for
/// the one before), the address afterwards, and whether IsRouter is R afterwards.
#[derive(Clone, Copy)]
struct Row {
    solicited: bool,
    overrides: bool,
    gives: Gives,
    state: Option<Reachability>,
    mac: Option<Mac>,
    marks: bool,
}

const fn leads_to(
    solicited: bool,
    overrides: bool,
    gives: Gives,
    state: Option<Reachability>,
    mac: Option<Mac>,
    marks: bool,
) -> Row {
    Row {
        solicited,
        overrides,
        gives,
        state,
        mac,
        marks,
    }
}

/// The rows for an entry that is being resolved: every address is the first.
fn rows_while_incomplete() -> [Row; 12] {
    use Gives::*;
    use nd_neighbour::Reachability::*;
    [
        leads_to(false, false, No, None, None, false),
        leads_to(false, true, No, None, None, false),
        leads_to(true, false, No, None, None, false),
        leads_to(true, true, No, None, None, false),
        leads_to(false, false, Same, Some(Stale), Some(MAC), true),
        leads_to(false, true, Same, Some(Stale), Some(MAC), true),
        leads_to(true, false, Same, Some(Reachable), Some(MAC), true),
        leads_to(true, true, Same, Some(Reachable), Some(MAC), true),
        leads_to(false, false, Other, Some(Stale), Some(OTHER_MAC), true),
        leads_to(false, true, Other, Some(Stale), Some(OTHER_MAC), true),
        leads_to(true, false, Other, Some(Reachable), Some(OTHER_MAC), true),
        leads_to(true, true, Other, Some(Reachable), Some(OTHER_MAC), true),
    ]
}

/// The rows for an entry with an address. Without O another address only ends REACHABLE.
fn rows_with_address(without_override: Option<Reachability>) -> [Row; 12] {
    use Gives::*;
    use nd_neighbour::Reachability::*;
    [
        leads_to(false, false, No, None, Some(MAC), true),
        leads_to(false, true, No, None, Some(MAC), true),
        leads_to(true, false, No, Some(Reachable), Some(MAC), true),
        leads_to(true, true, No, Some(Reachable), Some(MAC), true),
        leads_to(false, false, Same, None, Some(MAC), true),
        leads_to(false, true, Same, None, Some(MAC), true),
        leads_to(true, false, Same, Some(Reachable), Some(MAC), true),
        leads_to(true, true, Same, Some(Reachable), Some(MAC), true),
        leads_to(false, false, Other, without_override, Some(MAC), false),
        leads_to(true, false, Other, without_override, Some(MAC), false),
        leads_to(false, true, Other, Some(Stale), Some(OTHER_MAC), true),
        leads_to(true, true, Other, Some(Reachable), Some(OTHER_MAC), true),
    ]
}

/// A cache whose entry is in a state at 20,000.
fn cache_with(
    rt: &(impl Abort + AllocGlobal),
    before: Option<Reachability>,
    router: bool,
) -> Cache<Global> {
    let mut cache = Cache::new(rt.alloc(), 4, 3).expect(rt, "memory");
    let a = addr(1);
    if before == Some(Reachability::Incomplete) {
        let _ = cache.used(19_500, a, packet(rt, 1), TIMES);
    } else if before.is_some() {
        let _ = cache.heard(1000, given(1), TIMES);
    }
    if before == Some(Reachability::Reachable) {
        cache.confirmed(19_000, a, 15_000);
    }
    if before == Some(Reachability::Delay) {
        let _ = cache.used(19_000, a, packet(rt, 1), TIMES);
    }
    if before == Some(Reachability::Probe) {
        let _ = cache.used(2000, a, packet(rt, 1), TIMES);
    }
    let _ = cache.heard(19_900, News::Marked { addr: a, router }, TIMES);
    cache
}

/// Returns true if one row holds, with R set or not, for an entry that was marked otherwise.
fn row_holds(
    rt: &(impl Abort + AllocGlobal),
    before: Reachability,
    row: Row,
    router: bool,
) -> bool {
    let mut cache = cache_with(rt, Some(before), !router);
    let a = addr(1);
    let found = state(&cache, 20_000, a);
    let news = News::Advert {
        addr: a,
        flags: Flags {
            router,
            solicited: row.solicited,
            overrides: row.overrides,
        },
        mac: match row.gives {
            Gives::No => None,
            Gives::Same => Some(MAC),
            Gives::Other => Some(OTHER_MAC),
        },
    };
    let heard = cache.heard(20_000, news, TIMES).is_ok();
    let after = Neighbour {
        addr: a,
        mac: row.mac,
        router: router == row.marks,
        state: row.state.unwrap_or(before),
        reachable_left: match (row.state, before) {
            (Some(Reachability::Reachable), _) => Some(15_000),
            // It was confirmed a second ago.
            (None, Reachability::Reachable) => Some(14_000),
            _ => None,
        },
    };
    found == Some(before) && heard && cache.entry(20_000, a) == Some(after)
}

#[test]
fn every_advertisement_makes_of_an_entry_what_the_table_says(rt: HostRuntime) {
    for router in [false, true] {
        for row in rows_while_incomplete() {
            assert!(rt; row_holds(&rt, Reachability::Incomplete, row, router));
        }
        for row in rows_with_address(Some(Reachability::Stale)) {
            assert!(rt; row_holds(&rt, Reachability::Reachable, row, router));
        }
        for row in rows_with_address(None) {
            assert!(rt; row_holds(&rt, Reachability::Stale, row, router));
            assert!(rt; row_holds(&rt, Reachability::Delay, row, router));
            assert!(rt; row_holds(&rt, Reachability::Probe, row, router));
        }
    }
}

#[test]
fn an_address_that_is_wanted_is_told_once(rt: HostRuntime) {
    let mut cache = Cache::new(rt.alloc(), 4, 3).expect(&rt, "memory");
    let a = addr(1);
    assert!(rt; cache.told_at(a) == 0);
    assert!(rt; cache.want(1000, a, TIMES) == Ok(Want::Waits { solicit: true }));
    assert!(rt; state(&cache, 1000, a) == Some(Reachability::Incomplete));
    assert!(rt; cache.want(1500, a, TIMES) == Ok(Want::Waits { solicit: false }));
    assert!(rt; cache.told_at(a) == 1);
    let wanted = match cache.heard(1600, given(1), TIMES) {
        Ok(touched) => touched.was_wanted,
        Err(_) => false,
    };
    assert!(rt; wanted);
    assert!(rt; cache.told_at(a) == 0);
    assert!(rt; state(&cache, 1600, a) == Some(Reachability::Stale));
    assert!(rt; cache.want(1700, a, TIMES) == Ok(Want::Known(MAC)));
    assert!(rt; state(&cache, 1700, a) == Some(Reachability::Delay));
}

/// A packet whose last two bytes are this number.
fn numbered(rt: &(impl Abort + AllocGlobal), n: u16) -> Packet<Global> {
    let mut frame = Vec::new(rt.alloc());
    frame.extend_from_slice(&[0; 14]).expect(rt, "memory");
    frame
        .extend_from_slice(&n.to_be_bytes())
        .expect(rt, "memory");
    Packet::new(frame).expect(rt, "too short")
}

#[test]
fn five_hundred_and_twelve_neighbours_are_shown_and_cleared(rt: HostRuntime) {
    let mut cache = Cache::new(rt.alloc(), 512, 3).expect(&rt, "memory");
    // The highest address first, so that each is put before all others.
    for n in (0..512u16).rev() {
        let sent = cache.used(0, addr(n), numbered(&rt, n), TIMES);
        assert!(rt; is_queued(sent) == Some(true));
    }
    assert!(rt; cache.waiting() == 512);
    let mut n = 0u16;
    for row in cache.rows(0) {
        assert!(rt; row.addr == addr(n));
        assert!(rt; row.state == Reachability::Incomplete);
        n = n.saturating_add(1);
    }
    assert!(rt; n == 512);
    let mut n = 0u16;
    for packet in &cache.clear().expect(&rt, "memory") {
        assert!(rt; packet.as_bytes().ends_with(&n.to_be_bytes()));
        n = n.saturating_add(1);
    }
    assert!(rt; n == 512);
    assert!(rt; cache.waiting() == 0);
    assert!(rt; cache.rows(0).next().is_none());
}

#[test]
fn looks_at_no_more_entries_than_their_number_has_binary_digits(
    rt: HostRuntime,
) -> Result<(), Fail> {
    let mut cache = Cache::new(rt.alloc(), 512, 3)?;
    let mut probes = Probes::new();
    assert!(rt; !cache.find(addr(7), &mut probes));
    assert!(rt; probes.looks == 0);
    for n in 0..512u16 {
        let news = News::Given {
            addr: addr(n * 2),
            mac: MAC,
            mark: None,
        };
        assert!(rt; cache.heard(0, news, TIMES).is_ok());
    }
    for n in 0..512u16 {
        let mut probes = Probes::new();
        assert!(rt; cache.find(addr(n * 2), &mut probes));
        assert!(rt; !cache.find(addr(n * 2 + 1), &mut probes));
        // Nine or ten looks halve 512 entries to none.
        assert!(rt; probes.looks >= 18 && probes.looks <= 20);
    }
    Ok(())
}
