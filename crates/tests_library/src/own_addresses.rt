ghost use Rattle.std.specs.Prelude.{◌<◌, ◌^◌};

use crate::advertisement::advertisement;
use nd_addr::{Addr, Mac, Prefix};
use nd_decode::PrefixInfo;
use nd_slaac::*;
use std::alloc::Global;
use std::process::Abort;
use std::test::*;

const MAC: Mac = Mac([0x34, 0x56, 0x78, 0x9a, 0xbc, 0xde]);

/// fe80::3656:78ff:fe9a:bcde.
const LINK_LOCAL: Addr = Addr([
    0xfe, 0x80, 0, 0, 0, 0, 0, 0, 0x36, 0x56, 0x78, 0xff, 0xfe, 0x9a, 0xbc, 0xde,
]);

/// A Router Advertisement with the prefixes 2001:db8:3f::/64 and 2001:db8:40::/64, for 2592000 and 604800 seconds.
const TWO_PREFIXES: [u8; 80] = [
    0x86, 0x00, 0x00, 0x00, 0x40, 0x00, 0x07, 0x08, 0x00, 0x00, 0x00, 0x00, 0x00, 0x00, 0x00, 0x00,
    0x03, 0x04, 0x40, 0xc0, 0x00, 0x27, 0x8d, 0x00, 0x00, 0x09, 0x3a, 0x80, 0x00, 0x00, 0x00, 0x00,
    0x20, 0x01, 0x0d, 0xb8, 0x00, 0x3f, 0x00, 0x00, 0x00, 0x00, 0x00, 0x00, 0x00, 0x00, 0x00, 0x00,
    0x03, 0x04, 0x40, 0xc0, 0x00, 0x27, 0x8d, 0x00, 0x00, 0x09, 0x3a, 0x80, 0x00, 0x00, 0x00, 0x00,
    0x20, 0x01, 0x0d, 0xb8, 0x00, 0x40, 0x00, 0x00, 0x00, 0x00, 0x00, 0x00, 0x00, 0x00, 0x00, 0x00,
];

/// The same with the prefix 2001:db8:3f::/64 twice.
const PREFIX_TWICE: [u8; 80] = [
    0x86, 0x00, 0x00, 0x00, 0x40, 0x00, 0x07, 0x08, 0x00, 0x00, 0x00, 0x00, 0x00, 0x00, 0x00, 0x00,
    0x03, 0x04, 0x40, 0xc0, 0x00, 0x27, 0x8d, 0x00, 0x00, 0x09, 0x3a, 0x80, 0x00, 0x00, 0x00, 0x00,
    0x20, 0x01, 0x0d, 0xb8, 0x00, 0x3f, 0x00, 0x00, 0x00, 0x00, 0x00, 0x00, 0x00, 0x00, 0x00, 0x00,
    0x03, 0x04, 0x40, 0xc0, 0x00, 0x27, 0x8d, 0x00, 0x00, 0x09, 0x3a, 0x80, 0x00, 0x00, 0x00, 0x00,
    0x20, 0x01, 0x0d, 0xb8, 0x00, 0x3f, 0x00, 0x00, 0x00, 0x00, 0x00, 0x00, 0x00, 0x00, 0x00, 0x00,
];

/// An option for the prefix 2001:db8:n::/64.
fn option(n: u16, valid_lifetime: u32, preferred_lifetime: u32) -> Option<PrefixInfo> {
    let [high, low] = n.to_be_bytes();
    let first = Addr([
        0x20, 0x01, 0x0d, 0xb8, high, low, 0, 0, 0, 0, 0, 0, 0, 0, 0, 0,
    ]);
    Some(PrefixInfo {
        prefix: Prefix::new(first, 64)?,
        on_link: true,
        autonomous: true,
        valid_lifetime,
        preferred_lifetime,
    })
}

/// 2001:db8:n:0:3656:78ff:fe9a:bcde, which an option for 2001:db8:n::/64 forms.
fn formed_of(n: u16) -> Addr {
    let [high, low] = n.to_be_bytes();
    Addr([
        0x20, 0x01, 0x0d, 0xb8, high, low, 0, 0, 0x36, 0x56, 0x78, 0xff, 0xfe, 0x9a, 0xbc, 0xde,
    ])
}

/// A month and a week, as routers announce by default (RFC 4861, section 6.2.1).
fn default_option(n: u16) -> Option<PrefixInfo> {
    option(n, 2_592_000, 604_800)
}

/// This is due next, at this moment.
fn falls_due(rt: &impl Abort, addresses: &mut Addresses<Global>, now: u64, wanted: Due)
    requires { now < 2 ^ 62 }
{
    assert!(rt; addresses.next_due() == Some(now));
    assert_eq!(rt; addresses.turn(now), Some(wanted));
}

/// The addresses of an interface whose link-local one was assigned at 1000.
fn started(rt: &impl Abort, alloc: Global) -> Addresses<Global> {
    let mut addresses = Addresses::start(
        AddressRoom::new(alloc, 64).expect(rt, "memory"),
        0,
        MAC,
        Transmits::ONE,
        0,
        1000,
    );
    assert!(rt; addresses.state(0, LINK_LOCAL) == Some(State::Tentative));
    falls_due(rt, &mut addresses, 0, Due::Solicit(LINK_LOCAL));
    assert!(rt; addresses.state(999, LINK_LOCAL) == Some(State::Tentative));
    falls_due(rt, &mut addresses, 1000, Due::Assign(LINK_LOCAL));
    assert!(rt; addresses.state(1000, LINK_LOCAL) == Some(State::Preferred));
    assert!(rt; addresses.next_due() == None);
    addresses
}

/// The 64 addresses are shown in the order of their numbers, the link-local one after those of 2001:db8::/32.
fn all_are_shown(rt: &impl Abort, addresses: &Addresses<Global>) {
    let mut n = 0u16;
    for row in addresses.rows(1200) {
        assert!(rt; row.addr == if n < 63 { formed_of(n) } else { LINK_LOCAL });
        n = n.saturating_add(1);
    }
    assert!(rt; n == 64);
}

/// Hears the option for 2001:db8:n::/64.
fn hear_option(addresses: &mut Addresses<Global>, n: u16) -> Option<Result<Taken, Full>> {
    let info = default_option(n)?;
    Some(addresses.heard_prefix(1200, &info, 0, 1000))
}

#[test]
fn the_65th_address_has_no_room(rt: HostRuntime) {
    let two = advertisement(&TWO_PREFIXES).expect(&rt, "message");
    let twice = advertisement(&PREFIX_TWICE).expect(&rt, "message");
    let mut addresses = started(&rt, rt.alloc());
    for n in 0..61u16 {
        assert!(rt; hear_option(&mut addresses, n) == Some(Ok(Taken::Formed)));
    }
    assert!(rt; addresses.fits(two.options));
    assert!(rt; hear_option(&mut addresses, 61) == Some(Ok(Taken::Formed)));
    // There is room for one. Two options that form one address need room for one.
    assert!(rt; addresses.fits(twice.options));
    assert!(rt; !addresses.fits(two.options));
    assert!(rt; hear_option(&mut addresses, 62) == Some(Ok(Taken::Formed)));
    all_are_shown(&rt, &addresses);
    // There are 64. An option for one that is known is taken still.
    assert!(rt; !addresses.fits(twice.options));
    assert!(rt; hear_option(&mut addresses, 62) == Some(Ok(Taken::Renewed)));
    let next = default_option(63).expect(&rt, "option");
    assert!(rt; addresses.would_form(&next));
    assert!(rt; hear_option(&mut addresses, 63) == Some(Err(Full)));
    all_are_shown(&rt, &addresses);
}

#[test]
fn a_rest_is_cut_to_two_hours(rt: HostRuntime) {
    let now = 1_000_000u64;
    assert!(rt; renewed(now, Some(now + 10_800_000), 3600) == Some(now + 7_200_000));
    assert!(rt; renewed(now, Some(now + 3_600_000), 1800) == Some(now + 3_600_000));
    assert!(rt; renewed(now, Some(now + 3_600_000), 5400) == Some(now + 5_400_000));
    assert!(rt; renewed(now, Some(now + 10_800_000), 7201) == Some(now + 7_201_000));
    assert!(rt; renewed(now, Some(now + 10_800_000), 0xffff_ffff) == None);
    assert!(rt; renewed(now, None, 60) == Some(now + 7_200_000));
}
