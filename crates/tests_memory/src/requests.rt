//! How often an event asks for memory and for how many bytes, and that nothing is kept of what is heard: no clause speaks of that.
//! Lengths of frames are those of RFC 2464 (14 bytes of header), RFC 8200 (40) and RFC 4861, section 4.

ghost use Rattle.std.specs.Prelude.{◌<◌, ◌^◌};

use crate::node::{ADVERTISEMENT, EMPTY, MAC, OWN, REDIRECT, TRANSIT, routes};
use nd_addr::{Addr, Preference, Role};
use nd_advertiser::{Config, ConfigFlags};
use nd_node::{Event, Limits, Node, OutgoingPacket, Request, Table};
use nd_out::Reports;
use nd_refusing::Refusing;
use nd_slaac::Transmits;
use rand_core::SeedableRng;
use rand_pcg::Pcg32;
use std::alloc::Global;
use std::process::Abort;
use std::test::*;

pub(crate) type Heap = Refusing<Global>;

/// A solicitation of fe80::2 for the host's address, with the link-layer address of fe80::2.
const SOLICITATION: [u8; 86] = [
    0x33, 0x33, 0xff, 0x9a, 0xbc, 0xde, 2, 0, 0, 0, 0, 2, 0x86, 0xdd, 0x60, 0, 0, 0, 0, 0x20, 0x3a,
    0xff, 0xfe, 0x80, 0, 0, 0, 0, 0, 0, 0, 0, 0, 0, 0, 0, 0, 2, 0xff, 2, 0, 0, 0, 0, 0, 0, 0, 0, 0,
    1, 0xff, 0x9a, 0xbc, 0xde, 0x87, 0, 0x52, 0x51, 0, 0, 0, 0, 0xfe, 0x80, 0, 0, 0, 0, 0, 0, 0x36,
    0x56, 0x78, 0xff, 0xfe, 0x9a, 0xbc, 0xde, 1, 1, 2, 0, 0, 0, 0, 2,
];

/// The answer of fe80::2 to a solicitation of the host, with its link-layer address.
const ANSWER: [u8; 86] = [
    0x34, 0x56, 0x78, 0x9a, 0xbc, 0xde, 2, 0, 0, 0, 0, 2, 0x86, 0xdd, 0x60, 0, 0, 0, 0, 0x20, 0x3a,
    0xff, 0xfe, 0x80, 0, 0, 0, 0, 0, 0, 0, 0, 0, 0, 0, 0, 0, 2, 0xfe, 0x80, 0, 0, 0, 0, 0, 0, 0x36,
    0x56, 0x78, 0xff, 0xfe, 0x9a, 0xbc, 0xde, 0x88, 0, 0xad, 0x4b, 0x60, 0, 0, 0, 0xfe, 0x80, 0, 0,
    0, 0, 0, 0, 0, 0, 0, 0, 0, 0, 0, 2, 2, 1, 2, 0, 0, 0, 0, 2,
];

/// A Router Solicitation of fe80::2, with its link-layer address.
const ROUTER_SOLICITATION: [u8; 70] = [
    0x33, 0x33, 0, 0, 0, 2, 2, 0, 0, 0, 0, 2, 0x86, 0xdd, 0x60, 0, 0, 0, 0, 0x10, 0x3a, 0xff, 0xfe,
    0x80, 0, 0, 0, 0, 0, 0, 0, 0, 0, 0, 0, 0, 0, 2, 0xff, 2, 0, 0, 0, 0, 0, 0, 0, 0, 0, 0, 0, 0, 0,
    2, 0x85, 0, 0x7a, 0x2a, 0, 0, 0, 0, 1, 1, 2, 0, 0, 0, 0, 2,
];

/// The asker.
const ASKER: Addr = Addr([0xfe, 0x80, 0, 0, 0, 0, 0, 0, 0, 0, 0, 0, 0, 0, 0, 2]);

/// The number of times that an event is passed while it is counted.
pub(crate) const TIMES: u64 = 1000;

/// How often an event is passed before it is counted. By then a node keeps what it keeps of it: three packets wait for a neighbour at most.
const FIRST: u64 = 4;

/// Room for as much as any event here reports, in entries: at most 20, and 9 in reserve for a turn.
const ROOM: usize = 29;

/// The frame of a solicitation or an advertisement of a neighbour: a message of 24 bytes, and a link-layer address in 8.
pub(crate) const FRAME: u64 = 14 + 40 + 24 + 8;

/// The most bytes that a host asks for to show two neighbours: 32 for each in a list of them; four for each byte of a text, since its room
/// doubles as it grows; and a list of four texts, of four words each. The texts are `neighbour fe80::2 02:00:00:00:00:02 delay host` and
/// `neighbour fe80::ff:fe00:1 02:00:00:00:00:01 stale router`.
const SHOWN_BYTES: u64 = 2 * 32 + 4 * (46 + 56) + 4 * 32;

/// How often it asks: for the two lists, and for 8, 16, 32 and 64 bytes or more of each text.
const SHOWN_REQUESTS: u64 = 2 + 2 * 4;

/// The most bytes that a turn asks for to send a Router Advertisement: room for a solicitation, as each turn does; for 18 options of five words,
/// which are a lifetime and a list; and for the frame, with a message of 16 bytes and a link-layer address in 8.
const ADVERTISED_BYTES: u64 = FRAME + 18 * 40 + (14 + 40 + 16 + 8);

/// How often it asks: for these three.
const ADVERTISED_REQUESTS: u64 = 3;

/// Up to which minute a router advertises: before ReachableTime is drawn again, after two hours (RFC 4861, section 6.3.4).
const MINUTES: u64 = 100;

/// What an event asks for.
#[derive(Clone, Copy)]
struct Asked {
    /// The number of entries that it reports.
    told: u64,
    /// How often it asks for memory.
    requests: u64,
    /// For how many bytes in all.
    bytes: u64,
}

/// Takes an event. There is room for all that is reported.
fn ask<'h>(
    rt: &impl Abort,
    heap: &'h Heap,
    node: &mut Node<Pcg32, &'h Heap>,
    now: u64,
    request: &Request<&'h Heap>,
) -> Asked
    requires { now < 2 ^ 62 }
{
    let mut outs = Reports::new(heap).expect(rt, "memory");
    outs.reserve(ROOM).expect(rt, "memory");
    let requests = heap.requests();
    let bytes = heap.bytes();
    node.request(now, request, &mut outs).expect(rt, "memory");
    let requests = heap.requests().saturating_sub(requests);
    let bytes = heap.bytes().saturating_sub(bytes);
    let told = outs.into_list().expect(rt, "memory").len() as u64;
    Asked {
        told,
        requests,
        bytes,
    }
}

/// Takes an event a few times at `start`, and then a thousand times, `step` ms apart. Each of these reports as many entries as `most` says and asks
/// for as much at most, and all together leave as many bytes held as there were.
fn asks<'h>(
    rt: &impl Abort,
    heap: &'h Heap,
    node: &mut Node<Pcg32, &'h Heap>,
    start: u64,
    step: u64,
    request: &Request<&'h Heap>,
    most: Asked,
)
    requires start { start < 2 ^ 32 }
    requires step { step < 2 ^ 32 }
{
    for _ in 0..FIRST {
        let _asked = ask(rt, heap, node, start, request);
    }
    let held = heap.held();
    for n in 0..TIMES {
        let asked = ask(rt, heap, node, start + step * n, request);
        assert!(rt; asked.told == most.told);
        assert!(rt; asked.requests <= most.requests);
        assert!(rt; asked.bytes <= most.bytes);
    }
    assert!(rt; heap.held() == held);
}

/// Receives a frame.
fn receives<'h>(rt: &impl Abort, heap: &'h Heap, bytes: &[u8]) -> Request<&'h Heap> {
    let mut frame = Vec::new(heap);
    frame.extend_from_slice(bytes).expect(rt, "memory");
    Request::Event(Event::Receives(frame))
}

/// A node at 3 s, up to which all that is due is done.
fn started<'h>(rt: &impl Abort, heap: &'h Heap, role: Role) -> Node<Pcg32, &'h Heap> {
    let generator = Pcg32::seed_from_u64(0);
    let limits = Limits::usual();
    let mut node = Node::new(heap, role, MAC, 0, Transmits::ONE, limits, generator).expect(
        rt, "memory",
    );
    let _asked = ask(rt, heap, &mut node, 3000, &Request::Event(Event::Passes));
    node
}

/// What is counted: a list that grows from 100 bytes to twice as many, and no request that is refused.
#[test]
fn what_is_counted(rt: HostRuntime) {
    let heap = Refusing::new(rt.alloc());
    let mut bytes = Vec::<u8, &Heap>::with_capacity(&heap, 100).expect(&rt, "memory");
    assert!(rt; heap.requests() == 1 && heap.bytes() == 100 && heap.held() == 100);
    heap.refuse(1);
    assert!(rt; bytes.reserve(101).is_err());
    assert!(rt; heap.requests() == 1 && heap.bytes() == 100 && heap.held() == 100);
    bytes.reserve(101).expect(&rt, "memory");
    assert!(rt; heap.requests() == 2 && heap.bytes() == 300 && heap.held() == 200);
    drop(bytes);
    assert!(rt; heap.requests() == 2 && heap.bytes() == 300 && heap.held() == 0);
}

/// A host's events. The neighbour is known when the packet is sent.
fn asks_of_a_host<'h>(rt: &impl Abort, heap: &'h Heap, node: &mut Node<Pcg32, &'h Heap>) {
    let packet = Request::Event(Event::Sends(OutgoingPacket {
        source: OWN,
        destination: ASKER,
        next_header: 59,
        payload: Vec::new(heap),
    }));
    for (event, told, requests, bytes) in [
        // A frame that is dropped.
        (receives(rt, heap, &EMPTY), 1, 0, 0),
        // It adds nothing more.
        (receives(rt, heap, &ADVERTISEMENT), 1, 0, 0),
        // The answer.
        (receives(rt, heap, &SOLICITATION), 2, 1, FRAME),
        // The packet, which is two headers.
        (packet, 1, 1, 14 + 40),
        // Two rows.
        (
            Request::Shows(Table::Neighbours),
            1,
            SHOWN_REQUESTS,
            SHOWN_BYTES,
        ),
        // What the neighbour answers, and a Redirect to it: they add nothing more.
        (receives(rt, heap, &ANSWER), 1, 0, 0),
        (receives(rt, heap, &REDIRECT), 1, 0, 0),
        // Nothing is due.
        (Request::Event(Event::Passes), 0, 0, 0),
    ] {
        let most = Asked {
            told,
            requests,
            bytes,
        };
        asks(rt, heap, node, 3000, 0, &event, most);
    }
    // Once all else is over, the neighbours after a day, a turn draws ReachableTime every two hours (RFC 4861, section 6.3.4). It sends nothing, and
    // asks for room for a frame all the same.
    let most = Asked {
        told: 0,
        requests: 1,
        bytes: FRAME,
    };
    asks(
        rt,
        heap,
        node,
        100_000_000,
        7_200_000,
        &Request::Event(Event::Passes),
        most,
    );
}

#[test]
fn how_much_a_host_asks_for(rt: HostRuntime) {
    let heap = Refusing::new(rt.alloc());
    let mut node = started(&rt, &heap, Role::Host);
    asks_of_a_host(&rt, &heap, &mut node);
}

/// A router's events.
fn asks_of_a_router<'h>(rt: &impl Abort, heap: &'h Heap, node: &mut Node<Pcg32, &'h Heap>) {
    let flags = ConfigFlags {
        managed: false,
        other: false,
        preference: Preference::Medium,
    };
    let config = Config::new(3, 4, 1800, 64, flags, 0, 0, 0).expect(rt, "settings");
    let [on_link, behind] = routes().expect(rt, "routes");
    let events = [
        Request::Event(Event::Advertises(config)),
        Request::Event(Event::PutsRoute(on_link)),
        Request::Event(Event::PutsRoute(behind)),
    ];
    for event in &events {
        let _asked = ask(rt, heap, node, 3000, event);
    }
    // Advertisements are 3 to 4 s apart, so a minute has 20 at most, and the entries for all of them have room.
    let held = heap.held();
    for minute in 1..MINUTES {
        let asked = ask(
            rt,
            heap,
            node,
            60_000 * minute,
            &Request::Event(Event::Passes),
        );
        assert!(rt; asked.told >= 14);
        assert!(rt; asked.requests <= asked.told.saturating_mul(ADVERTISED_REQUESTS));
        assert!(rt; asked.bytes <= asked.told.saturating_mul(ADVERTISED_BYTES));
    }
    assert!(rt; heap.held() == held);
    for (event, told, requests, bytes) in [
        // The packet, which is two headers. The Redirect went before the first one, and its next hop is being resolved.
        (receives(rt, heap, &TRANSIT), 1, 1, 14 + 40),
        // An answer is planned.
        (receives(rt, heap, &ROUTER_SOLICITATION), 1, 0, 0),
    ] {
        let most = Asked {
            told,
            requests,
            bytes,
        };
        asks(rt, heap, node, 6_000_000, 0, &event, most);
    }
}

#[test]
fn how_much_a_router_asks_for(rt: HostRuntime) {
    let heap = Refusing::new(rt.alloc());
    let mut node = started(&rt, &heap, Role::Router);
    asks_of_a_router(&rt, &heap, &mut node);
}
