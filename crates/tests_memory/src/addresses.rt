use crate::refusing::each_is_refused_once;
use linked_list_allocator::LocalHeap;
use nd_addr::{Addr, Mac};
use nd_slaac::{AddressRoom, Addresses, State, Transmits};
use std::process::Abort;
use std::test::*;

const MAC: Mac = Mac([0x34, 0x56, 0x78, 0x9a, 0xbc, 0xde]);

/// The calls that take memory, in the order in which a run makes them.
#[derive(Clone, Copy, Debug, PartialEq, Eq)]
enum Call {
    Room,
}

/// The addresses of an interface that starts: the first call for which there is no memory.
fn run(rt: &impl Abort, heap: &LocalHeap) -> Option<Call> {
    let Ok(room) = AddressRoom::new(heap, 64) else {
        return Some(Call::Room);
    };
    let mut addresses = Addresses::start(room, 0, MAC, Transmits::ONE, 0, 1000);
    let addr = Addr([
        0xfe, 0x80, 0, 0, 0, 0, 0, 0, 0x36, 0x56, 0x78, 0xff, 0xfe, 0x9a, 0xbc, 0xde,
    ]);
    assert!(rt; addresses.state(0, addr) == Some(State::Tentative));
    // A conflict takes no memory.
    assert!(rt; addresses.conflict(addr));
    assert!(rt; addresses.state(0, addr) == Some(State::Duplicate));
    assert!(rt; addresses.rows(0).next().is_some());
    None
}

#[test]
fn each_request_of_the_addresses_is_refused_once(rt: HostRuntime) -> Result<(), Fail> {
    each_is_refused_once(
        &rt,
        rt.alloc(),
        1,
        |heap| run(&rt, heap).map(|call| call as usize),
    )
}
