ghost use Rattle.std.specs.Prelude.{◌<◌, ◌^◌};

use crate::advertisement::advertisement;
use nd_addr::{Addr, Preference, Prefix};
use nd_routers::*;
use std::alloc::Global;
use std::process::Abort;
use std::test::*;

/// fe80::n.
fn addr(n: u8) -> Addr {
    Addr([0xfe, 0x80, 0, 0, 0, 0, 0, 0, 0, 0, 0, 0, 0, 0, 0, n])
}

/// Hears a router where no router's end is still to be reported.
fn hear(
    routers: &mut Routers<Global>,
    now: u64,
    source: Addr,
    lifetime: u16,
    preference: Preference,
) -> Option<Result<Change, TableRefusal>>
    requires { now < 2 ^ 62 }
{
    match routers.next_due() {
        Some(next) if next <= now => None,
        _ => Some(routers.heard_ra(now, source, lifetime, preference)),
    }
}

/// Hears a router that says no preference, with this change.
fn hears(
    rt: &impl Abort,
    routers: &mut Routers<Global>,
    now: u64,
    source: Addr,
    lifetime: u16,
    wanted: Change,
)
    requires { now < 2 ^ 62 }
{
    assert_eq!(rt;
        hear(routers, now, source, lifetime, Preference::Medium),
        Some(Ok(wanted))
    );
}

#[test]
fn has_room_for_as_many_as_it_was_made_for(rt: HostRuntime) {
    let mut routers = Routers::new(rt.alloc(), 2).expect(&rt, "memory");
    for n in 0..2u8 {
        assert!(rt; routers.fits(1_000, addr(n), 1_800));
        hears(&rt, &mut routers, 1_000, addr(n), 1_800, Change::Entered);
        routers.failed(addr(n));
    }
    assert!(rt; !routers.fits(1_000, addr(2), 1_800));
    assert!(rt;
        hear(&mut routers, 1_000, addr(2), 1_800, Preference::High)
            == Some(Err(TableRefusal::Full(Limit::Routers)))
    );
    assert!(rt; failed_at(&routers, 1) == Some(1));
    assert!(rt; routers.ended(addr(0)));
    hears(&rt, &mut routers, 1_000, addr(2), 1_800, Change::Entered);
    assert!(rt; routers.len() == 2);
    // As few as one, and as many as 64.
    let mut one = Routers::new(rt.alloc(), 1).expect(&rt, "memory");
    hears(&rt, &mut one, 1_000, addr(1), 1_800, Change::Entered);
    assert!(rt; !one.fits(1_000, addr(2), 1_800));
    let mut most = Routers::new(rt.alloc(), 64).expect(&rt, "memory");
    for n in 0..64u8 {
        hears(&rt, &mut most, 1_000, addr(n), 1_800, Change::Entered);
    }
    assert!(rt; !most.fits(1_000, addr(64), 1_800));
}

/// The place of the i-th router among those that failed.
fn failed_at(routers: &Routers<Global>, i: usize) -> Option<u64> {
    match routers.at(i) {
        Some(listed) => listed.failed,
        None => None,
    }
}

#[test]
fn sixteen_routers_are_shown_and_cleared_in_order(rt: HostRuntime) {
    let mut routers = Routers::new(rt.alloc(), 16).expect(&rt, "memory");
    // They enter in another order than that of their addresses.
    for n in (0..16u8).rev() {
        hears(&rt, &mut routers, 1_000, addr(n), 1_800, Change::Entered);
    }
    let mut n = 16u8;
    for entry in routers.rows(1_000) {
        n = n.saturating_sub(1);
        assert!(rt; entry.addr == addr(n));
        assert!(rt; entry.left == Some(1_800_000));
    }
    assert!(rt; n == 0);
    let cleared = routers.clear().expect(&rt, "memory");
    assert!(rt; cleared.len() == 16);
    let mut n = 16u8;
    for source in &cleared {
        n = n.saturating_sub(1);
        assert!(rt; *source == addr(n));
    }
    assert!(rt; routers.len() == 0);
    assert!(rt; routers.at(0).is_none());
}

/// A prefix option of an advertisement: the last byte of 2001:db8:0:n::/64, its flags, and its valid lifetime in seconds.
#[derive(Clone, Copy)]
struct Told {
    n: u8,
    flags: u8,
    valid: u8,
}

/// A prefix that is on the link.
fn lasting(n: u8, valid: u8) -> Told {
    Told {
        n,
        flags: 0x80,
        valid,
    }
}

/// 2001:db8:0:n::/64.
fn prefix(n: u8) -> Option<Prefix> {
    Prefix::new(
        Addr([0x20, 0x01, 0x0d, 0xb8, 0, 0, 0, n, 0, 0, 0, 0, 0, 0, 0, 0]),
        64,
    )
}

/// Hears an advertisement with two prefix options. The addresses of the prefixes begin with these two bytes.
fn hear_from(
    prefixes: &mut Prefixes<Global>,
    now: u64,
    first: [u8; 2],
    a: Told,
    b: Told,
) -> Option<(bool, Result<(), TableRefusal>)>
    requires { now < 2 ^ 62 }
{
    let [x, y] = first;
    let bytes = [
        0x86, 0, 0, 0, 0, 0, 0, 0, 0, 0, 0, 0, 0, 0, 0, 0, 3, 4, 64, a.flags, 0, 0, 0, a.valid, 0,
        0, 0, 1, 0, 0, 0, 0, x, y, 0x0d, 0xb8, 0, 0, 0, a.n, 0, 0, 0, 0, 0, 0, 0, 0, 3, 4, 64,
        b.flags, 0, 0, 0, b.valid, 0, 0, 0, 1, 0, 0, 0, 0, x, y, 0x0d, 0xb8, 0, 0, 0, b.n, 0, 0, 0,
        0, 0, 0, 0, 0,
    ];
    let message = advertisement(&bytes)?;
    let fits = prefixes.fits(now, message.options);
    Some((fits, prefixes.heard_ra(now, message.options)))
}

/// Hears an advertisement with two prefix options.
fn hear_both(
    prefixes: &mut Prefixes<Global>,
    now: u64,
    a: Told,
    b: Told,
) -> Option<(bool, Result<(), TableRefusal>)>
    requires { now < 2 ^ 62 }
{
    hear_from(prefixes, now, [0x20, 0x01], a, b)
}

/// They fit, and are taken.
fn takes_both(rt: &impl Abort, prefixes: &mut Prefixes<Global>, now: u64, a: Told, b: Told)
    requires { now < 2 ^ 62 }
{
    assert!(rt; hear_both(prefixes, now, a, b) == TAKEN);
}

/// The number of prefixes that haven't ended.
fn count_at(prefixes: &Prefixes<Global>, now: u64) -> usize {
    let mut count = 0usize;
    for _ in prefixes.rows(now) {
        count = count.saturating_add(1);
    }
    count
}

const TAKEN: Option<(bool, Result<(), TableRefusal>)> = Some((true, Ok(())));

const FULL: Option<(bool, Result<(), TableRefusal>)> = Some((
    false,
    Err(TableRefusal::Full(Limit::Prefixes)),
));

#[test]
fn has_room_for_sixty_four(rt: HostRuntime) {
    let mut prefixes = Prefixes::new(rt.alloc(), 64).expect(&rt, "memory");
    for n in 0..64u8 {
        takes_both(&rt, &mut prefixes, 1_000, lasting(n, 100), lasting(n, 200));
    }
    let mut n = 0u8;
    for entry in prefixes.rows(1_000) {
        assert!(rt; Some(*entry.key) == prefix(n));
        assert!(rt; entry.left == Some(200_000));
        n = n.saturating_add(1);
    }
    assert!(rt; n == 64);
    // A new prefix before the old one leaves is one too many, and nothing changes.
    assert!(rt; hear_both(&mut prefixes, 2_000, lasting(64, 100), lasting(0, 0)) == FULL);
    assert!(rt; count_at(&prefixes, 2_000) == 64);
    assert!(rt;
        !prefixes.on_link(
            2_000,
            Addr([0x20, 0x01, 0x0d, 0xb8, 0, 0, 0, 64, 0, 0, 0, 0, 0, 0, 0, 1])
        )
    );
    assert!(rt;
        prefixes.on_link(
            2_000,
            Addr([0x20, 0x01, 0x0d, 0xb8, 0, 0, 0, 0, 0, 0, 0, 0, 0, 0, 0, 1])
        )
    );
    // In the other order it is taken, and the new one is last.
    takes_both(&rt, &mut prefixes, 2_000, lasting(0, 0), lasting(64, 100));
    assert!(rt; count_at(&prefixes, 2_000) == 64);
    let mut last = None;
    for entry in prefixes.rows(2_000) {
        last = Some(*entry.key);
    }
    assert!(rt; last == prefix(64));
    // Those that have ended don't count.
    takes_both(
        &rt,
        &mut prefixes,
        201_000,
        lasting(65, 100),
        lasting(66, 100),
    );
    assert!(rt; count_at(&prefixes, 201_000) == 2);
}
