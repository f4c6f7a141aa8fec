use nd_addr::{Addr, Mac, Role};
use nd_link::LinkEvent;
use nd_node::{Event, Request, Table};
use nd_random::Source;
use ndpctl_link::*;
use rand_core::Rng;
use std::alloc::Global;
use std::process::Abort;
use std::test::*;

/// What a line says.
#[derive(Clone, Copy, Debug, PartialEq, Eq)]
enum Said {
    /// With the first of its random words.
    Starts(Role, Mac, u32),
    Passes(u64),
    Sends(u64, Addr, Addr, u8, usize),
    Shows(u64, Table),
    Stops(u64),
    CommandsOtherwise(u64),
    Delivers(u64, u64),
}

const MAC: Mac = Mac([0x34, 0x56, 0x78, 0x9a, 0xbc, 0xde]);

/// fe80::3656:78ff:fe9a:bcde.
const LINK_LOCAL: Addr = Addr([
    0xfe, 0x80, 0, 0, 0, 0, 0, 0, 0x36, 0x56, 0x78, 0xff, 0xfe, 0x9a, 0xbc, 0xde,
]);

/// fe80::ff:fe00:1.
const ROUTER: Addr = Addr([0xfe, 0x80, 0, 0, 0, 0, 0, 0, 0, 0, 0, 0xff, 0xfe, 0, 0, 1]);

fn event_said(event: LinkEvent<Source, Global>) -> Option<Said> {
    match event {
        LinkEvent::Passes => None,
        LinkEvent::Starts(role, mac, _, source) => {
            let mut source = source;
            Some(Said::Starts(role, mac, source.next_u32()))
        }
        LinkEvent::Comes(node, Request::Event(Event::Passes)) => Some(Said::Passes(node)),
        LinkEvent::Comes(node, Request::Event(Event::Sends(packet))) => Some(Said::Sends(
            node,
            packet.source,
            packet.destination,
            packet.next_header,
            packet.payload.len(),
        )),
        LinkEvent::Comes(node, Request::Shows(table)) => Some(Said::Shows(node, table)),
        LinkEvent::Comes(node, Request::Event(Event::Stops)) => Some(Said::Stops(node)),
        LinkEvent::Comes(node, _) => Some(Said::CommandsOtherwise(node)),
        LinkEvent::Delivers(node, frame) => Some(Said::Delivers(node, frame)),
    }
}

/// The moment of a line and what it says, or `None` where it is malformed.
fn reading(rt: &(impl Abort + AllocGlobal), line: &str) -> Option<(u64, Said)> {
    let read = read_line(&rt.alloc(), line.as_bytes()).expect(rt, "memory")?;
    event_said(read.event).map(|said| (read.at, said))
}

/// The line says this at its moment, or is malformed.
fn says(rt: &(impl Abort + AllocGlobal), line: &str, wanted: Option<(u64, Said)>) {
    assert_eq!(rt; reading(rt, line), wanted);
}

#[test]
fn nodes_start(rt: HostRuntime) {
    says(
        &rt,
        "0 node host 34:56:78:9a:bc:de word:0",
        Some((0, Said::Starts(Role::Host, MAC, 0))),
    );
    says(
        &rt,
        "2000 node router 34:56:78:9A:BC:DE word:4294967295",
        Some((2000, Said::Starts(Role::Router, MAC, 4_294_967_295))),
    );
    match reading(
        &rt,
        "1 node host 34:56:78:9a:bc:de seed:18446744073709551615",
    ) {
        Some((1, Said::Starts(Role::Host, mac, _))) => assert!(rt; mac == MAC),
        _ => assert!(rt; false),
    }
}

#[test]
fn nodes_start_with_several_solicitations(rt: HostRuntime) {
    says(
        &rt,
        "0 node host 34:56:78:9a:bc:de word:0 8",
        Some((0, Said::Starts(Role::Host, MAC, 0))),
    );
    for line in [
        "0 node host 34:56:78:9a:bc:de word:0 0",
        "0 node host 34:56:78:9a:bc:de word:0 9",
        "0 node host 34:56:78:9a:bc:de word:0 03",
        "0 node host 34:56:78:9a:bc:de word:0 257",
        "0 node host 34:56:78:9a:bc:de word:0 ",
        "0 node host 34:56:78:9a:bc:de word:0 1 1",
    ] {
        says(&rt, line, None);
    }
}

#[test]
fn commands_come_to_nodes(rt: HostRuntime) {
    says(&rt, "10 on 0 at", Some((10, Said::Passes(0))));
    says(&rt, "10 on 15 stop", Some((10, Said::Stops(15))));
    says(
        &rt,
        "4611686018427387903 on 18446744073709551615 show neighbours",
        Some((
            4_611_686_018_427_387_903,
            Said::Shows(18_446_744_073_709_551_615, Table::Neighbours),
        )),
    );
    says(
        &rt,
        "3000 on 1 send fe80::3656:78ff:fe9a:bcde fe80::ff:fe00:1 17 0102",
        Some((3000, Said::Sends(1, LINK_LOCAL, ROUTER, 17, 2))),
    );
    for line in [
        "10 on 2 confirm fe80::1",
        "10 on 2 forget fe80::1",
        "10 on 2 clear routers",
        "10 on 2 advertise 200 600 1800 64 - 0 0 0",
        "10 on 2 prefix 2001:db8::/64 - - la",
        "10 on 2 route 2001:db8::/64 direct",
        "10 on 2 address 2001:db8::5 - -",
        "10 on 2 withdraw 2001:db8::5",
        "10 on 2 resolve 2001:db8::5",
    ] {
        says(&rt, line, Some((10, Said::CommandsOtherwise(2))));
    }
}

#[test]
fn frames_are_carried(rt: HostRuntime) {
    says(&rt, "400 deliver 1 0", Some((400, Said::Delivers(1, 0))));
    says(&rt, "2800 deliver 0 9", Some((2800, Said::Delivers(0, 9))));
    says(
        &rt,
        "0 deliver 18446744073709551615 18446744073709551615",
        Some((
            0,
            Said::Delivers(18_446_744_073_709_551_615, 18_446_744_073_709_551_615),
        )),
    );
}

#[test]
fn nodes_that_cannot_start_are_malformed(rt: HostRuntime) {
    for line in [
        "0 node 34:56:78:9a:bc:de word:0",
        "0 node Host 34:56:78:9a:bc:de word:0",
        "0 node bridge 34:56:78:9a:bc:de word:0",
        "0 node host 34:56:78:9a:bc word:0",
        "0 node host 34-56-78-9a-bc-de word:0",
        "0 node host 34:56:78:9a:bc:de",
        "0 node host 34:56:78:9a:bc:de ",
        "0 node host 34:56:78:9a:bc:de 0",
        "0 node host 34:56:78:9a:bc:de word:4294967296",
        "0 node host 34:56:78:9a:bc:de word:00",
        "0 node host 34:56:78:9a:bc:de seed:18446744073709551616",
        "0 node host 34:56:78:9a:bc:de word:0 ",
        "0 node host 34:56:78:9a:bc:de word:0 word:0",
        "0 node  host 34:56:78:9a:bc:de word:0",
        "4611686018427387904 node host 34:56:78:9a:bc:de word:0",
        "00 node host 34:56:78:9a:bc:de word:0",
        "node host 34:56:78:9a:bc:de word:0",
        "0 node",
    ] {
        says(&rt, line, None);
    }
}

/// A node receives frames from the link alone.
#[test]
fn other_commands_are_malformed(rt: HostRuntime) {
    for line in [
        "",
        "0",
        "0 ",
        "0 at",
        "0 stop",
        "0 rx -",
        "0 show params",
        "0 on",
        "0 on 0",
        "0 on 0 ",
        "0 on at",
        "0 on 00 at",
        "0 on 01 at",
        "0 on -1 at",
        "0 on 18446744073709551616 at",
        "0 on 0  at",
        "0 on 0 at ",
        "0 on 0 rx",
        "0 on 0 rx -",
        "0 on 0 rx 3333ff9abcde",
        "0 on 0 on 0 at",
        "0 on 0 show",
        "0 on 0 address 2001:db8::5 -",
        "0 on 0 address ::1 - -",
        "0 on 0 withdraw",
        "0 on 0 resolve",
        "0 address 2001:db8::5 - -",
        "0 withdraw 2001:db8::5",
        "0 resolve 2001:db8::5",
        "0 ON 0 at",
        "0 deliver",
        "0 deliver 0",
        "0 deliver 0 ",
        "0 deliver 0 1 ",
        "0 deliver 0 1 2",
        "0 deliver 0  1",
        "0 deliver 0 01",
        "0 deliver 00 1",
        "0 deliver 18446744073709551616 0",
        "0 deliver 0 18446744073709551616",
        "0 deliver a 0",
        "-1 deliver 0 1",
        " 0 deliver 0 1",
    ] {
        says(&rt, line, None);
    }
}
