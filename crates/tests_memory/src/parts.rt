use crate::node::{ADVERTISEMENT, AMPLE, MAC, come, exhaust, receives};
use linked_list_allocator::LocalHeap;
use nd_addr::Role;
use nd_node::{Answer, Event, Limits, Node, Policies};
use nd_out::{Limit, Out, Reports};
use nd_slaac::Transmits;
use rand_core::SeedableRng;
use rand_pcg::Pcg32;
use std::process::Abort;
use std::test::*;

/// The same advertisement with the search name example.net in the place of example.com.
const OTHER_NAME: [u8; 158] = [
    0x33, 0x33, 0, 0, 0, 1, 2, 0, 0, 0, 0, 1, 0x86, 0xdd, 0x60, 0, 0, 0, 0, 0x68, 0x3a, 0xff, 0xfe,
    0x80, 0, 0, 0, 0, 0, 0, 0, 0, 0, 0xff, 0xfe, 0, 0, 1, 0xff, 2, 0, 0, 0, 0, 0, 0, 0, 0, 0, 0, 0,
    0, 0, 1, 0x86, 0, 0xc3, 0x3d, 0x40, 0, 7, 8, 0, 0, 0, 0, 0, 0, 0, 0, 1, 1, 2, 0, 0, 0, 0, 1, 3,
    4, 0x40, 0x80, 0, 0x27, 0x8d, 0, 0, 9, 0x3a, 0x80, 0, 0, 0, 0, 0x20, 1, 0x0d, 0xb8, 0, 0, 0, 0,
    0, 0, 0, 0, 0, 0, 0, 0, 0x19, 3, 0, 0, 0, 0, 7, 8, 0x20, 1, 0x0d, 0xb8, 0, 0, 0, 0, 0, 0, 0, 0,
    0, 0, 0, 0x53, 0x1f, 3, 0, 0, 0, 0, 7, 8, 7, 0x65, 0x78, 0x61, 0x6d, 0x70, 0x6c, 0x65, 3, 0x6e,
    0x65, 0x74, 0, 0, 0, 0,
];

/// A host with the policy `parts` that keeps one search name, at 3 s, up to which all that is due is done.
fn host<'h>(rt: &impl Abort, heap: &'h LocalHeap) -> Node<Pcg32, &'h LocalHeap> {
    let generator = Pcg32::seed_from_u64(0);
    let limits = Limits::usual().with_names(1).expect(rt, "a limit");
    let mut node = Node::new(heap, Role::Host, MAC, 0, Transmits::ONE, limits, generator)
        .expect(rt, "memory")
        .with_policies(Policies::none().with_parts());
    let mut outs = Reports::new(heap).expect(rt, "memory");
    come(&mut node, 3000, &Event::Passes, &mut outs).expect(rt, "memory");
    node
}

/// An advertisement of which only a search name is passed over is taken while no byte of memory is left.
#[test]
fn a_part_is_passed_over_without_memory(rt: HostRuntime) {
    let heap = LocalHeap::new(rt.alloc(), AMPLE).expect(&rt, "memory");
    let mut node = host(&rt, &heap);
    let first = receives(&heap, &ADVERTISEMENT).expect(&rt, "memory");
    let other = receives(&heap, &OTHER_NAME).expect(&rt, "memory");
    let mut outs = Reports::new(&heap).expect(&rt, "memory");
    come(&mut node, 3000, &first, &mut outs).expect(&rt, "memory");
    let mut told = Reports::new(&heap).expect(&rt, "memory");
    let blocks = exhaust(&rt, &heap);
    let answer = come(&mut node, 3000, &other, &mut told).expect(&rt, "no memory asked for");
    assert!(rt; answer == Answer::Done);
    let told = told.into_list().expect(&rt, "no memory asked for");
    assert!(rt; told.len() == 2);
    assert!(rt; matches!(told.last(), Some((3000, Out::Ignored(Limit::Names)))));
    assert!(rt; !blocks.is_empty());
}
