//! Runs that reach far: many lines, long ones, and many rows of one event.

use crate::tested::{STARTED, host, router, run_on};
use nd_addr::Addr;
use nd_text::write_hex;
use std::fmt::Write;
use std::process::Abort;
use std::test::*;

/// More rows of one event than two bytes count.
const ADVERTISEMENTS: u64 = 65_600;

/// A router of short intervals is left alone for two days, and advertises each 3 s from the assignment of its address on (RFC 4861, section 6.2.4):
/// one event reports 65,600 frames, and the next line is answered.
#[test]
fn a_line_of_many_rows_and_a_line_behind_it(rt: HostRuntime) {
    let last = 1000 + 3000 * (ADVERTISEMENTS - 1);
    let mut script = String::new(rt.alloc());
    writeln!(
        script,
        "0 advertise 3 4 - 64 - 0 0 0\n{last} at\n{last} show routes"
    )
    .expect(&rt, "memory");
    let mut wanted = String::from_str(
        rt.alloc(),
        "0 tx 3333ff00000102000000000186dd6000000000183aff00000000000000000000000000000000ff0200000000000000000001ff00000187007d2500000000fe80000000000000000000fffe000001\n1000 assigned fe80::ff:fe00:1\n",
    )
    .expect(&rt, "memory");
    for n in 0..ADVERTISEMENTS {
        let at = 1000 + 3000 * n;
        writeln!(
            wanted,
            "{at} tx 33330000000102000000000186dd6000000000183afffe80000000000000000000fffe000001ff02000000000000000000000000000186003a194000000c00000000000000000101020000000001"
        )
        .expect(&rt, "memory");
    }
    writeln!(wanted, "{last} end 0").expect(&rt, "memory");
    run_on(&rt, rt.alloc(), &router(), &script, &wanted);
}

/// An advertisement with a prefix, and what a host reports of it up to the end of its router.
const ADVERTISED: &str =
    "1200 rx 33330000000102000000000186dd6000000000383afffe80000000000000000000fffe000001ff0200000000000000000000000000018600f9ce4000070800000000000000000101020000000001030440c000278d0000093a800000000020010db8000000000000000000000000\n";

const FORMED: &str =
    "1200 heard ra\n1200 tx 3333ff9abcde3456789abcde86dd6000000000183aff00000000000000000000000000000000ff0200000000000000000001ff9abcde870024a70000000020010db800000000365678fffe9abcde\n2200 assigned 2001:db8::3656:78ff:fe9a:bcde\n1801200 ended router fe80::ff:fe00:1\n";

/// The moments of a day, one each second, change no byte: 86,401 lines write what one writes.
#[test]
fn a_line_each_second_changes_no_byte(rt: HostRuntime) {
    let mut script = String::from_str(rt.alloc(), ADVERTISED).expect(&rt, "memory");
    for second in 0..86_401u64 {
        let at = 1200 + 1000 * second;
        writeln!(script, "{at} at").expect(&rt, "memory");
    }
    script
        .push_str("86401200 show neighbours\n")
        .expect(&rt, "memory");
    let mut wanted = String::from_str(rt.alloc(), STARTED).expect(&rt, "memory");
    wanted.push_str(FORMED).expect(&rt, "memory");
    wanted.push_str("86401200 end 0\n").expect(&rt, "memory");
    run_on(&rt, rt.alloc(), &host(), &script, &wanted);
}

/// A packet is at most as long as the MTU of the link: 40 bytes of its header, and 1,460 of its payload (RFC 8200, section 5).
#[test]
fn a_packet_longer_than_the_mtu_is_refused(rt: HostRuntime) {
    let send = "3000 send fe80::3656:78ff:fe9a:bcde 2001:db8::1 17 ";
    let mut payload = String::new(rt.alloc());
    for _ in 0..1460 {
        payload.push_str("00").expect(&rt, "memory");
    }
    let script = format!(in rt.alloc(); "{send}{payload}\n{send}{payload}00\n").expect(
        &rt, "memory",
    );
    let mut wanted = String::from_str(rt.alloc(), STARTED).expect(&rt, "memory");
    wanted
        .push_str(
            "3000 lost no-route fe80::3656:78ff:fe9a:bcde 2001:db8::1\n3000 refused too-long\n",
        )
        .expect(&rt, "memory");
    run_on(&rt, rt.alloc(), &host(), &script, &wanted);
}

/// A Router Advertisement of fe80::ff:fe00:1 without a prefix.
const ADVERTISED_WITHOUT_PREFIX: &str =
    "1200 rx 33330000000102000000000186dd6000000000183afffe80000000000000000000fffe000001ff0200000000000000000000000000018600331d4000070800000000000000000101020000000001\n";

/// What precedes the destination in a frame to that router.
const TO_ROUTER: &str =
    "1300 tx 0200000000013456789abcde86dd6000000000001140fe80000000000000365678fffe9abcde";

/// The number of destinations: one more than are remembered (RFC 4861, section 5.1, the Destination Cache; 256 is our choice).
const DESTINATIONS: u16 = 257;

/// A packet to an address off the link, and the frame that it becomes.
fn push_packet(rt: &impl Abort, number: u128, lines: &mut String, wanted: &mut String) {
    let destination = Addr::from_bits(0x2001_0db8_0001_0000_0000_0000_0000_0000 | number);
    lines
        .push_str("1300 send fe80::3656:78ff:fe9a:bcde ")
        .expect(rt, "memory");
    destination.write_text(lines).expect(rt, "memory");
    lines.push_str(" 17 -\n").expect(rt, "memory");
    wanted.push_str(TO_ROUTER).expect(rt, "memory");
    write_hex(wanted, destination.as_bytes()).expect(rt, "memory");
    wanted.push_str("\n").expect(rt, "memory");
}

/// More destinations than are remembered are sent to twice, and each packet goes to the router.
#[test]
fn more_destinations_than_are_remembered_go_the_same_way(rt: HostRuntime) {
    let mut lines = String::from_str(rt.alloc(), ADVERTISED_WITHOUT_PREFIX).expect(&rt, "memory");
    let mut wanted = String::from_str(rt.alloc(), STARTED).expect(&rt, "memory");
    wanted.push_str("1200 heard ra\n").expect(&rt, "memory");
    for _ in 0..2 {
        for number in 0..DESTINATIONS {
            push_packet(&rt, u128::from(number), &mut lines, &mut wanted);
        }
    }
    run_on(&rt, rt.alloc(), &host(), &lines, &wanted);
}
