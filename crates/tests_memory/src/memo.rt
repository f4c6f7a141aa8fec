//! A host that can remember no next hop sends what one that remembers them sends.

use crate::node::{ADVERTISEMENT, MAC, OWN};
use nd_addr::{Addr, Role};
use nd_node::{Event, Limits, Node, OutgoingPacket};
use nd_out::{Reports, write_outs};
use nd_refusing::Refusing;
use nd_slaac::Transmits;
use rand_core::SeedableRng;
use rand_pcg::Pcg32;
use std::alloc::Global;
use std::process::Abort;
use std::test::*;

type Heap = Refusing<Global>;

/// The number of destinations: one more than are remembered.
const DESTINATIONS: u16 = 257;

/// No request is refused, or the first one of each event.
const NO_REQUEST: u64 = 0;

const FIRST_REQUEST: u64 = 1;

/// Passes an event at 3 s. A function of its own, so that no test's proof carries what an event adds.
fn come<'h>(
    rt: &impl Abort,
    node: &mut Node<Pcg32, &'h Heap>,
    event: &Event<&'h Heap>,
    outs: &mut Reports<&'h Heap>,
) {
    node.event(3000, event, outs).expect(rt, "memory");
}

/// Hears a router.
fn hear<'h>(
    rt: &impl Abort,
    heap: &'h Heap,
    node: &mut Node<Pcg32, &'h Heap>,
    outs: &mut Reports<&'h Heap>,
) {
    let mut frame = Vec::new(heap);
    frame.extend_from_slice(&ADVERTISEMENT).expect(rt, "memory");
    come(rt, node, &Event::Passes, outs);
    come(rt, node, &Event::Receives(frame), outs);
}

/// Sends to each destination, while this request of each packet is refused.
fn send_to_each<'h>(
    rt: &impl Abort,
    heap: &'h Heap,
    node: &mut Node<Pcg32, &'h Heap>,
    refused: u64,
    outs: &mut Reports<&'h Heap>,
) {
    for number in 0..DESTINATIONS {
        let destination = Addr::from_bits(
            0x2001_0db8_0001_0000_0000_0000_0000_0000 | u128::from(number),
        );
        let event = Event::Sends(OutgoingPacket {
            source: OWN,
            destination,
            next_header: 59,
            payload: Vec::new(heap),
        });
        heap.refuse(refused);
        come(rt, node, &event, outs);
        assert!(rt; !heap.is_waiting());
    }
}

/// What a host sends to each destination, twice, behind a router that it heard. The first request of a packet is for its place among the
/// remembered next hops.
fn sent<'h>(rt: &impl Abort, heap: &'h Heap, refused: u64) -> String<&'h Heap> {
    let generator = Pcg32::seed_from_u64(0);
    let mut node = Node::new(
        heap,
        Role::Host,
        MAC,
        0,
        Transmits::ONE,
        Limits::usual(),
        generator,
    )
    .expect(rt, "memory");
    let mut outs = Reports::new(heap).expect(rt, "memory");
    hear(rt, heap, &mut node, &mut outs);
    outs.clear();
    for _ in 0..2 {
        send_to_each(rt, heap, &mut node, refused, &mut outs);
    }
    let mut text = String::new(heap);
    write_outs(&mut text, &mut outs).expect(rt, "memory");
    text
}

/// Two packets to each of 257 destinations, of which 256 are remembered, and none where memory for each is refused: the bytes are the same. The
/// first frame goes to the router.
#[test]
fn refused_puts_change_no_byte(rt: HostRuntime) {
    let heap = Refusing::new(rt.alloc());
    let remembering = sent(&rt, &heap, NO_REQUEST);
    let forgetting = sent(&rt, &heap, FIRST_REQUEST);
    assert!(rt; remembering.as_str() == forgetting.as_str());
    assert!(rt; remembering.as_str().lines().count() == 514);
    assert!(rt;
        remembering.as_str().starts_with(
            "3000 tx 0200000000013456789abcde86dd6000000000003b40fe80000000000000365678fffe9abcde20010db8000100000000000000000000\n"
        )
    );
}
