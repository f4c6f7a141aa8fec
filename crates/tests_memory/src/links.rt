//! How often a link asks for memory and for how many bytes, and what it keeps: each frame that was sent, and nothing else.

ghost use Rattle.std.specs.Prelude.{◌<◌, ◌^◌};

use crate::node::{MAC, OWN};
use crate::requests::{FRAME, Heap, TIMES};
use nd_addr::{Addr, Mac, Role};
use nd_link::{Link, LinkEvent, MemoryWire, Told};
use nd_node::{Event, OutgoingPacket, Request};
use nd_refusing::Refusing;
use nd_slaac::Transmits;
use rand_core::SeedableRng;
use rand_pcg::Pcg32;
use std::process::Abort;
use std::test::*;

/// The other host, whose own address is fe80::ff:fe00:2.
const OTHER_MAC: Mac = Mac([2, 0, 0, 0, 0, 2]);

const OTHER: Addr = Addr([0xfe, 0x80, 0, 0, 0, 0, 0, 0, 0, 0, 0, 0xff, 0xfe, 0, 0, 2]);

/// The number of bytes of an entry in a list of what an event reports: a moment of 8 bytes, at most four addresses, two of them in a Redirect, and at
/// most two words that say what it is.
const ENTRY: u64 = 8 + 4 * 16 + 2 * 8;

/// The number of bytes that the list of what an event reports asks for: it has room for the 8 packets that may wait for a neighbour, and for 4 rows more.
const TOLD: u64 = 12 * ENTRY;

/// The number of bytes that a sent frame has in the list of these: a number and a list, five words in all. The list doubles as it grows, so it
/// has less than twice the room that it needs, and asked for less than twice that.
const LISTED: u64 = 5 * 8;

/// How often it grows at most, up to a thousand frames.
const GROWTHS: u64 = 10;

/// Passes an event. A function of its own, so that no test's proof carries what an event adds.
fn comes<'h>(
    rt: &impl Abort,
    link: &mut Link<MemoryWire, Pcg32, &'h Heap>,
    now: u64,
    event: LinkEvent<Pcg32, &'h Heap>,
    told: &mut Vec<Told<&'h Heap>, &'h Heap>,
)
    requires { now < 2 ^ 62 }
{
    link.event(now, event, told).expect(rt, "memory");
}

/// Two hosts, of which each has an address, at 20 s, when the first one solicits the other's link-layer address. Each sent four frames before:
/// one solicitation for its own address, and three for routers.
fn two_hosts<'h>(
    rt: &impl Abort,
    heap: &'h Heap,
    told: &mut Vec<Told<&'h Heap>, &'h Heap>,
) -> Link<MemoryWire, Pcg32, &'h Heap> {
    let mut link = Link::new(heap, MemoryWire);
    begin(rt, heap, &mut link, told);
    link
}

/// The hosts start, and the first one sends.
fn begin<'h>(
    rt: &impl Abort,
    heap: &'h Heap,
    link: &mut Link<MemoryWire, Pcg32, &'h Heap>,
    told: &mut Vec<Told<&'h Heap>, &'h Heap>,
) {
    let packet = OutgoingPacket {
        source: OWN,
        destination: OTHER,
        next_header: 59,
        payload: Vec::new(heap),
    };
    comes(rt, link, 0, starts(MAC), told);
    comes(rt, link, 0, starts(OTHER_MAC), told);
    let sends = LinkEvent::Comes(0, Request::Event(Event::Sends(packet)));
    comes(rt, link, 20_000, sends, told);
}

/// A host starts.
fn starts<'h>(mac: Mac) -> LinkEvent<Pcg32, &'h Heap> {
    LinkEvent::Starts(Role::Host, mac, Transmits::ONE, Pcg32::seed_from_u64(0))
}

/// What a delivery asks for at most, and what the link keeps of it.
#[derive(Clone, Copy)]
struct Delivered {
    requests: u64,
    bytes: u64,
    least_kept: u64,
    most_kept: u64,
}

/// A frame is carried to the other host a thousand times, and asks for as much as `most` says at most.
fn delivers<'h>(
    rt: &impl Abort,
    heap: &'h Heap,
    link: &mut Link<MemoryWire, Pcg32, &'h Heap>,
    told: &mut Vec<Told<&'h Heap>, &'h Heap>,
    number: u64,
    most: Delivered,
) {
    told.clear();
    let (requests, bytes, held) = (heap.requests(), heap.bytes(), heap.held());
    for _ in 0..TIMES {
        told.clear();
        comes(rt, link, 20_000, LinkEvent::Delivers(1, number), told);
    }
    assert!(rt; matches!(&told[..], [Told::Node(1, _)]));
    told.clear();
    let requests = heap.requests().saturating_sub(requests);
    let bytes = heap.bytes().saturating_sub(bytes);
    let kept = heap.held().saturating_sub(held);
    assert!(rt; requests <= TIMES.saturating_mul(most.requests).saturating_add(GROWTHS));
    assert!(rt; bytes <= TIMES.saturating_mul(most.bytes));
    assert!(rt; kept >= TIMES.saturating_mul(most.least_kept));
    assert!(rt; kept <= TIMES.saturating_mul(most.most_kept));
}

#[test]
fn how_much_a_link_asks_for(rt: HostRuntime) {
    let heap = Refusing::new(rt.alloc());
    let mut told = Vec::with_capacity(&heap, 16).expect(&rt, "memory");
    let mut link = two_hosts(&rt, &heap, &mut told);
    // The first solicitation, for an address that isn't the other's, of 78 bytes: it is carried, and dropped, which is reported.
    let dropped = Delivered {
        requests: 2,
        bytes: 78 + TOLD,
        least_kept: 0,
        most_kept: 0,
    };
    delivers(&rt, &heap, &mut link, &mut told, 0, dropped);
    // The one for the other's address: it is carried, and answered as by a host alone, and the answer is kept.
    let answered = Delivered {
        requests: 5,
        bytes: FRAME + TOLD + 2 * FRAME + FRAME + 4 * LISTED,
        least_kept: FRAME,
        most_kept: FRAME + 2 * LISTED,
    };
    delivers(&rt, &heap, &mut link, &mut told, 8, answered);
}
