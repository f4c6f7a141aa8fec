ghost use Rattle.std.specs.Prelude.{◌<◌, ◌^◌};

use linked_list_allocator::LocalHeap;
use nd_addr::{Addr, Mac, Prefix, Role};
use nd_forwarding::{KeptRoute, Route};
use nd_node::{Answer, Event, Limits, Node};
use nd_out::{Refusal, Reports};
use nd_slaac::Transmits;
use rand_core::SeedableRng;
use rand_pcg::Pcg32;
use std::alloc::AllocError;
use std::process::Abort;
use std::test::*;

/// More than a node and all events here take.
pub(crate) const AMPLE: usize = 1 << 22;

/// The blocks that take what is left of a heap, in bytes.
const LARGE: usize = 8192;

const SMALL: usize = 16;

/// As many large blocks are parted into small ones.
const LAST: usize = 2;

/// The most blocks of one size.
const MOST_BLOCKS: usize = 2048;

pub(crate) const MAC: Mac = Mac([0x34, 0x56, 0x78, 0x9a, 0xbc, 0xde]);

pub(crate) const OWN: Addr = Addr([
    0xfe, 0x80, 0, 0, 0, 0, 0, 0, 0x36, 0x56, 0x78, 0xff, 0xfe, 0x9a, 0xbc, 0xde,
]);

/// Of which nothing was heard.
pub(crate) const STRANGER: Addr = Addr([0xfe, 0x80, 0, 0, 0, 0, 0, 0, 0, 0, 0, 0, 0, 0, 0, 9]);

/// Which says nothing: the Ethernet type of IPv6, and no packet.
pub(crate) const EMPTY: [u8; 14] = [0, 0, 0, 0, 0, 0, 0, 0, 0, 0, 0, 0, 0x86, 0xdd];

/// A Router Advertisement of fe80::ff:fe00:1 with its link-layer address, the prefix 2001:db8::/64 on the link for 30 days, the server 2001:db8::53
/// and the search name example.com for 1800 s.
pub(crate) const ADVERTISEMENT: [u8; 158] = [
    0x33, 0x33, 0, 0, 0, 1, 2, 0, 0, 0, 0, 1, 0x86, 0xdd, 0x60, 0, 0, 0, 0, 0x68, 0x3a, 0xff, 0xfe,
    0x80, 0, 0, 0, 0, 0, 0, 0, 0, 0, 0xff, 0xfe, 0, 0, 1, 0xff, 2, 0, 0, 0, 0, 0, 0, 0, 0, 0, 0, 0,
    0, 0, 1, 0x86, 0, 0xb9, 0x4f, 0x40, 0, 7, 8, 0, 0, 0, 0, 0, 0, 0, 0, 1, 1, 2, 0, 0, 0, 0, 1, 3,
    4, 0x40, 0x80, 0, 0x27, 0x8d, 0, 0, 9, 0x3a, 0x80, 0, 0, 0, 0, 0x20, 1, 0x0d, 0xb8, 0, 0, 0, 0,
    0, 0, 0, 0, 0, 0, 0, 0, 0x19, 3, 0, 0, 0, 0, 7, 8, 0x20, 1, 0x0d, 0xb8, 0, 0, 0, 0, 0, 0, 0, 0,
    0, 0, 0, 0x53, 0x1f, 3, 0, 0, 0, 0, 7, 8, 7, 0x65, 0x78, 0x61, 0x6d, 0x70, 0x6c, 0x65, 3, 0x63,
    0x6f, 0x6d, 0, 0, 0, 0,
];

/// A Redirect of fe80::ff:fe00:1: 2001:db8:1::5 by fe80::2, with the link-layer address of that.
pub(crate) const REDIRECT: [u8; 102] = [
    0x34, 0x56, 0x78, 0x9a, 0xbc, 0xde, 2, 0, 0, 0, 0, 1, 0x86, 0xdd, 0x60, 0, 0, 0, 0, 0x30, 0x3a,
    0xff, 0xfe, 0x80, 0, 0, 0, 0, 0, 0, 0, 0, 0, 0xff, 0xfe, 0, 0, 1, 0xfe, 0x80, 0, 0, 0, 0, 0, 0,
    0x36, 0x56, 0x78, 0xff, 0xfe, 0x9a, 0xbc, 0xde, 0x89, 0, 0xdf, 0x7d, 0, 0, 0, 0, 0xfe, 0x80, 0,
    0, 0, 0, 0, 0, 0, 0, 0, 0, 0, 0, 0, 2, 0x20, 1, 0x0d, 0xb8, 0, 1, 0, 0, 0, 0, 0, 0, 0, 0, 0, 5,
    2, 1, 2, 0, 0, 0, 0, 2,
];

/// A packet of 2001:db8::9 to 2001:db8:1::5, which a router sends on, with a Redirect of its sender to a better hop.
pub(crate) const TRANSIT: [u8; 54] = [
    0x34, 0x56, 0x78, 0x9a, 0xbc, 0xde, 2, 0, 0, 0, 0, 9, 0x86, 0xdd, 0x60, 0, 0, 0, 0, 0, 0x11,
    0x40, 0x20, 1, 0x0d, 0xb8, 0, 0, 0, 0, 0, 0, 0, 0, 0, 0, 0, 9, 0x20, 1, 0x0d, 0xb8, 0, 1, 0, 0,
    0, 0, 0, 0, 0, 0, 0, 5,
];

/// Passes an event. A function of its own, so that no test's proof carries what an event adds.
pub(crate) fn come<'h>(
    node: &mut Node<Pcg32, &'h LocalHeap>,
    now: u64,
    event: &Event<&'h LocalHeap>,
    outs: &mut Reports<&'h LocalHeap>,
) -> Result<Answer, AllocError>
    requires { now < 2 ^ 62 }
{
    node.event(now, event, outs)
}

/// A host, at 3 s, up to which all that is due is done.
pub(crate) fn host<'h>(rt: &impl Abort, heap: &'h LocalHeap) -> Node<Pcg32, &'h LocalHeap> {
    let generator = Pcg32::seed_from_u64(0);
    let mut node = Node::new(
        heap,
        Role::Host,
        MAC,
        0,
        Transmits::ONE,
        Limits::usual(),
        generator,
    )
    .expect(rt, "memory");
    let mut outs = Reports::new(heap).expect(rt, "memory");
    come(&mut node, 3000, &Event::Passes, &mut outs).expect(rt, "memory");
    node
}

/// Receives a frame.
pub(crate) fn receives<'h>(
    heap: &'h LocalHeap,
    bytes: &[u8],
) -> Result<Event<&'h LocalHeap>, AllocError> {
    let mut frame = Vec::new(heap);
    frame.extend_from_slice(bytes)?;
    Ok(Event::Receives(frame))
}

/// Takes all that is left of a heap, but for the last of it in blocks of 16 bytes: one byte more is refused.
pub(crate) fn exhaust<'h>(
    rt: &impl Abort,
    heap: &'h LocalHeap,
) -> Vec<Vec<u8, &'h LocalHeap>, &'h LocalHeap> {
    let mut blocks = Vec::with_capacity(heap, 2 * MOST_BLOCKS).expect(rt, "memory");
    fill(heap, LARGE, &mut blocks).expect(rt, "memory");
    for _ in 0..LAST {
        let _block = blocks.pop();
    }
    fill(heap, SMALL, &mut blocks).expect(rt, "memory");
    assert!(rt; Vec::<u8, &LocalHeap>::with_capacity(heap, 1).is_err());
    blocks
}

/// Takes blocks of one size, until there is none left.
fn fill<'h>(
    heap: &'h LocalHeap,
    size: usize,
    blocks: &mut Vec<Vec<u8, &'h LocalHeap>, &'h LocalHeap>,
) -> Result<(), AllocError> {
    for _ in 0..MOST_BLOCKS {
        match Vec::with_capacity(heap, size) {
            Ok(block) => blocks.push(block)?,
            Err(_) => break,
        }
    }
    Ok(())
}

/// A payload for which no MTU of a link has room: RFC 2464, section 2, has 1500 bytes.
const TOO_LONG: [u8; 2000] = [0; 2000];

/// Such a packet is refused, and said to be too long, while no byte of memory is left for a copy of it.
#[test]
fn a_packet_that_is_too_long_is_not_copied(rt: HostRuntime) {
    let heap = LocalHeap::new(rt.alloc(), AMPLE).expect(&rt, "memory");
    let mut node = host(&rt, &heap);
    let mut outs = Reports::new(&heap).expect(&rt, "memory");
    let blocks = exhaust(&rt, &heap);
    let answer = node
        .send(3000, OWN, STRANGER, 59, &TOO_LONG, &mut outs)
        .expect(&rt, "memory");
    assert!(rt; answer == Answer::Refused(Refusal::TooLong));
    let told = outs.into_list().expect(&rt, "no memory asked for");
    assert!(rt; told.len() == 1);
    assert!(rt; !blocks.is_empty());
}

/// 2001:db8::/64 on the link, and 2001:db8:1::/64 behind fe80::2.
pub(crate) fn routes() -> Option<[KeptRoute; 2]> {
    let on_link = Addr([0x20, 1, 0x0d, 0xb8, 0, 0, 0, 0, 0, 0, 0, 0, 0, 0, 0, 0]);
    let behind = Addr([0x20, 1, 0x0d, 0xb8, 0, 1, 0, 0, 0, 0, 0, 0, 0, 0, 0, 0]);
    let hop = Addr([0xfe, 0x80, 0, 0, 0, 0, 0, 0, 0, 0, 0, 0, 0, 0, 0, 2]);
    Some([
        KeptRoute {
            prefix: Prefix::new(on_link, 64)?,
            route: Route::Direct,
        },
        KeptRoute {
            prefix: Prefix::new(behind, 64)?,
            route: Route::Via(hop),
        },
    ])
}
