use crate::refusing::each_is_refused_once;
use linked_list_allocator::LocalHeap;
use nd_decode::{Options, decode};
use nd_dns::{Dns, TableRefusal};
use std::alloc::AllocError;
use std::process::Abort;
use std::test::*;

/// An advertisement with the DNS server 2001:db8::53 and the search name a.example, both for 1800 seconds.
const HEARD: [u8; 64] = [
    0x86, 0, 0, 0, 0, 0, 0, 0, 0, 0, 0, 0, 0, 0, 0, 0, 0x19, 3, 0, 0, 0, 0, 7, 8, 0x20, 1, 0x0d,
    0xb8, 0, 0, 0, 0, 0, 0, 0, 0, 0, 0, 0, 0x53, 0x1f, 3, 0, 0, 0, 0, 7, 8, 1, 0x61, 7, 0x65, 0x78,
    0x61, 0x6d, 0x70, 0x6c, 0x65, 0, 0, 0, 0, 0, 0,
];

/// The calls that take memory, in the order in which a run makes them.
#[derive(Clone, Copy, Debug, PartialEq, Eq)]
enum Call {
    New,
    Names,
}

/// A server and a name are heard: the first call for which there is no memory.
fn run(rt: &impl Abort, heap: &LocalHeap) -> Option<Call> {
    let Ok(mut dns) = Dns::new(heap, 32, 32) else {
        return Some(Call::New);
    };
    let message = decode(&HEARD).ok()?;
    let names = match dns.names(0, message.options) {
        Ok(names) => names,
        Err(refusal) => {
            assert!(rt; refusal == TableRefusal::Memory);
            assert!(rt; dns.search_names(0).next().is_none());
            assert!(rt; dns.servers(0).next().is_none());
            return Some(Call::Names);
        }
    };
    assert!(rt; dns.heard_ra(0, message.options, names).is_ok());
    assert!(rt; dns.search_names(0).next().is_some());
    assert!(rt; dns.servers(0).next().is_some());
    None
}

#[test]
fn each_request_of_the_names_is_refused_once(rt: HostRuntime) -> Result<(), Fail> {
    each_is_refused_once(
        &rt,
        rt.alloc(),
        2,
        |heap| run(&rt, heap).map(|call| call as usize),
    )
}

/// The same server, and the search name b.example.
const OTHER_NAME: [u8; 64] = [
    0x86, 0, 0, 0, 0, 0, 0, 0, 0, 0, 0, 0, 0, 0, 0, 0, 0x19, 3, 0, 0, 0, 0, 7, 8, 0x20, 1, 0x0d,
    0xb8, 0, 0, 0, 0, 0, 0, 0, 0, 0, 0, 0, 0x53, 0x1f, 3, 0, 0, 0, 0, 7, 8, 1, 0x62, 7, 0x65, 0x78,
    0x61, 0x6d, 0x70, 0x6c, 0x65, 0, 0, 0, 0, 0, 0,
];

/// A least piece of the heap.
fn piece(heap: &LocalHeap) -> Result<Vec<u8, &LocalHeap>, AllocError> {
    Vec::with_capacity(heap, 1)
}

/// Hears the options of a message. Returns true if there was memory for the names that they add.
fn hear(rt: &impl Abort, dns: &mut Dns<&LocalHeap>, options: Options<'_>) -> bool {
    match dns.names(0, options) {
        Ok(names) => {
            assert!(rt; dns.heard_ra(0, options, names).is_ok());
            true
        }
        Err(refusal) => {
            assert!(rt; refusal == TableRefusal::Memory);
            false
        }
    }
}

#[test]
fn a_message_that_adds_no_name_needs_no_memory(rt: HostRuntime) -> Result<(), Fail> {
    let heap = LocalHeap::new(rt.alloc(), 6400)?;
    let mut dns = Dns::new(&heap, 32, 32)?;
    let first = decode(&HEARD).ok().ok_or("message")?;
    let other_name = decode(&OTHER_NAME).ok().ok_or("message")?;
    let no_name = decode(&HEARD[..40]).ok().ok_or("message")?;
    assert!(rt; hear(&rt, &mut dns, first.options));
    // All that is left of the heap is taken.
    let mut taken = Vec::new(rt.alloc());
    for _ in 0..400 {
        match piece(&heap) {
            Ok(bytes) => taken.push(bytes)?,
            Err(_) => break,
        }
    }
    assert!(rt; piece(&heap).is_err());
    assert!(rt; !hear(&rt, &mut dns, other_name.options));
    // A message without a name, and one whose name is listed already.
    assert!(rt; hear(&rt, &mut dns, no_name.options));
    assert!(rt; hear(&rt, &mut dns, first.options));
    Ok(())
}
