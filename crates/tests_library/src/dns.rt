ghost use Rattle.std.specs.Prelude.{◌<◌, ◌^◌};

use crate::advertisement::advertisement;
use nd_addr::Addr;
use nd_decode::Options;
use nd_dns::*;
use std::alloc::Global;
use std::process::Abort;
use std::test::*;

/// 2001:db8::n.
fn server(n: u8) -> Addr {
    Addr([0x20, 0x01, 0x0d, 0xb8, 0, 0, 0, 0, 0, 0, 0, 0, 0, 0, 0, n])
}

/// Hears the options of an advertisement, with the names that they add.
fn hear(dns: &mut Dns<Global>, now: u64, options: Options<'_>) -> Result<(), TableRefusal>
    requires { now < 2 ^ 62 }
{
    let names = dns.names(now, options)?;
    dns.heard_ra(now, options, names)
}

/// What an option announces: a server or a name by a byte, and its lifetime in seconds.
#[derive(Clone, Copy)]
struct Told {
    n: u8,
    lifetime: [u8; 4],
}

/// It is announced for some seconds, less than 256.
fn lasting(n: u8, seconds: u8) -> Told {
    Told {
        n,
        lifetime: [0, 0, 0, seconds],
    }
}

/// Hears an advertisement with two options of servers.
fn hear_servers(
    dns: &mut Dns<Global>,
    now: u64,
    a: Told,
    b: Told,
) -> Option<Result<(), TableRefusal>>
    requires { now < 2 ^ 62 }
{
    let [a1, a2, a3, a4] = a.lifetime;
    let [b1, b2, b3, b4] = b.lifetime;
    let bytes = [
        0x86, 0, 0, 0, 0, 0, 0, 0, 0, 0, 0, 0, 0, 0, 0, 0, 25, 3, 0, 0, a1, a2, a3, a4, 0x20, 0x01,
        0x0d, 0xb8, 0, 0, 0, 0, 0, 0, 0, 0, 0, 0, 0, a.n, 25, 3, 0, 0, b1, b2, b3, b4, 0x20, 0x01,
        0x0d, 0xb8, 0, 0, 0, 0, 0, 0, 0, 0, 0, 0, 0, b.n,
    ];
    let message = advertisement(&bytes)?;
    Some(hear(dns, now, message.options))
}

/// They are taken.
fn takes_servers(rt: &impl Abort, dns: &mut Dns<Global>, now: u64, a: Told, b: Told)
    requires { now < 2 ^ 62 }
{
    assert!(rt; hear_servers(dns, now, a, b) == TAKEN);
}

/// Hears an advertisement with two options of names, each of one label that is an x and the byte.
fn hear_names(dns: &mut Dns<Global>, now: u64, a: Told, b: Told) -> Option<Result<(), TableRefusal>>
    requires { now < 2 ^ 62 }
{
    let [a1, a2, a3, a4] = a.lifetime;
    let [b1, b2, b3, b4] = b.lifetime;
    let bytes = [
        0x86, 0, 0, 0, 0, 0, 0, 0, 0, 0, 0, 0, 0, 0, 0, 0, 31, 2, 0, 0, a1, a2, a3, a4, 2, b'x',
        a.n, 0, 0, 0, 0, 0, 31, 2, 0, 0, b1, b2, b3, b4, 2, b'X', b.n, 0, 0, 0, 0, 0,
    ];
    let message = advertisement(&bytes)?;
    Some(hear(dns, now, message.options))
}

/// They are taken.
fn takes_names(rt: &impl Abort, dns: &mut Dns<Global>, now: u64, a: Told, b: Told)
    requires { now < 2 ^ 62 }
{
    assert!(rt; hear_names(dns, now, a, b) == TAKEN);
}

const TAKEN: Option<Result<(), TableRefusal>> = Some(Ok(()));

const SERVERS_FULL: Option<Result<(), TableRefusal>> = Some(Err(TableRefusal::Full(
    Limit::Servers,
)));

const NAMES_FULL: Option<Result<(), TableRefusal>> = Some(Err(TableRefusal::Full(Limit::Names)));

/// The number of servers that haven't ended.
fn count_servers(dns: &Dns<Global>, now: u64) -> usize {
    let mut count = 0usize;
    for _ in dns.servers(now) {
        count = count.saturating_add(1);
    }
    count
}

/// The number of names that haven't ended.
fn count_names(dns: &Dns<Global>, now: u64) -> usize {
    let mut count = 0usize;
    for _ in dns.search_names(now) {
        count = count.saturating_add(1);
    }
    count
}

#[test]
fn has_room_for_thirty_two_servers(rt: HostRuntime) {
    let mut dns = Dns::new(rt.alloc(), 32, 32).expect(&rt, "memory");
    for n in 1..=32u8 {
        takes_servers(&rt, &mut dns, 1_000, lasting(n, 100), lasting(n, 200));
    }
    let mut n = 0u8;
    for entry in dns.servers(1_000) {
        n = n.saturating_add(1);
        assert!(rt; *entry.key == server(n));
        assert!(rt; entry.left == Some(200_000));
    }
    assert!(rt; n == 32);
    // A new server before the old one leaves is one too many, and nothing changes.
    assert!(rt; hear_servers(&mut dns, 2_000, lasting(33, 9), lasting(1, 0)) == SERVERS_FULL);
    assert!(rt; count_servers(&dns, 2_000) == 32);
    // In the other order it is taken.
    takes_servers(&rt, &mut dns, 2_000, lasting(1, 0), lasting(33, 9));
    assert!(rt; count_servers(&dns, 2_000) == 32);
    assert!(rt; count_servers(&dns, 11_000) == 31);
    // Those that have ended don't count.
    takes_servers(&rt, &mut dns, 201_000, lasting(40, 1), lasting(41, 1));
    assert!(rt; count_servers(&dns, 201_000) == 2);
}

#[test]
fn has_room_for_thirty_two_names(rt: HostRuntime) {
    let mut dns = Dns::new(rt.alloc(), 32, 32).expect(&rt, "memory");
    // The letters from A to Z are those from a to z.
    for n in b'a'..=b'z' {
        takes_names(&rt, &mut dns, 1_000, lasting(n, 100), lasting(n, 200));
    }
    for n in b'0'..=b'5' {
        takes_names(&rt, &mut dns, 1_000, lasting(n, 100), lasting(n, 200));
    }
    let mut wanted = b"abcdefghijklmnopqrstuvwxyz012345".iter();
    for entry in dns.search_names(1_000) {
        let n = wanted.next().expect(&rt, "one name too many");
        assert!(rt; entry.key.as_name().as_bytes() == [2, b'x', *n].as_slice());
        assert!(rt; entry.left == Some(200_000));
    }
    assert!(rt; wanted.next().is_none());
    // A new name before the old one leaves is one too many, and nothing changes.
    assert!(rt; hear_names(&mut dns, 2_000, lasting(b'6', 9), lasting(b'A', 0)) == NAMES_FULL);
    assert!(rt; count_names(&dns, 2_000) == 32);
    takes_names(&rt, &mut dns, 2_000, lasting(b'A', 0), lasting(b'6', 9));
    assert!(rt; count_names(&dns, 2_000) == 32);
    // A server is refused by its own limit alone.
    takes_servers(&rt, &mut dns, 2_000, lasting(1, 9), lasting(2, 9));
    takes_names(&rt, &mut dns, 201_000, lasting(b'7', 1), lasting(b'8', 1));
    assert!(rt; count_names(&dns, 201_000) == 2);
}
