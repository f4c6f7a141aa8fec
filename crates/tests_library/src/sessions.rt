//! A session runs, in and out of a slot: what no clause says, since each call may be out of memory.

use nd_addr::{Addr, Mac, Role};
use nd_node::{Event, Limits, Policies};
use nd_random::Source;
use nd_session::{Session, Slot};
use nd_slaac::Transmits;
use std::alloc::Global;
use std::process::Abort;
use std::test::*;

const MAC: Mac = Mac([0x34, 0x56, 0x78, 0x9a, 0xbc, 0xde]);

/// The link-local address of `MAC`.
const OWN: Addr = Addr([
    0xfe, 0x80, 0, 0, 0, 0, 0, 0, 0x36, 0x56, 0x78, 0xff, 0xfe, 0x9a, 0xbc, 0xde,
]);

/// A frame that says nothing: the Ethernet type of IPv6, and no packet.
const EMPTY: [u8; 14] = [0, 0, 0, 0, 0, 0, 0, 0, 0, 0, 0, 0, 0x86, 0xdd];

/// Starts a host at 0 in a slot.
fn host_in_slot(rt: &(impl Abort + AllocGlobal)) -> Slot {
    let alloc = rt.alloc();
    let limits = Limits::usual();
    let session = Session::start(
        alloc,
        Role::Host,
        MAC,
        0,
        Transmits::ONE,
        limits,
        Policies::none(),
        Source::seeded(0),
    )
    .expect(rt, "memory");
    let mut slot = Slot::closed();
    if let Ok(boxed) = Box::new(alloc, session) {
        slot.put(boxed);
    }
    slot
}

/// Takes the oldest report and returns its moment.
fn next_moment(session: &mut Session) -> Option<u64> {
    let (moment, _report) = session.take().ok()??;
    Some(moment)
}

/// The first solicitation of the seed 0 is sent at 234 ms; a second later the address is assigned and a router is solicited. An empty frame is
/// dropped, and a packet to all nodes is sent at once.
#[test]
fn reports_are_taken_in_their_order(rt: HostRuntime) {
    let alloc = rt.alloc();
    let mut slot = host_in_slot(&rt);
    assert!(rt; slot.is_open());
    let mut session = slot.take(alloc).expect(&rt, "a session");
    assert!(rt; !slot.is_open());
    session.event(2000, &Event::Passes).expect(&rt, "memory");
    session.receive(3000, &EMPTY).expect(&rt, "memory");
    session
        .send(3001, OWN, Addr::ALL_NODES, 59, &[])
        .expect(&rt, "memory");
    assert!(rt; session.last_moment() == 3001);
    for wanted in [234, 1234, 1234, 3000, 3001] {
        assert!(rt; next_moment(&mut session) == Some(wanted));
    }
    assert!(rt; next_moment(&mut session) == None);
}

/// Reports that were read are removed: a solicitation, the address that is assigned, and a Router Solicitation. The block of each frame becomes the
/// room in reserve.
#[test]
fn reports_are_removed_once_they_are_read(rt: HostRuntime) {
    let alloc = rt.alloc();
    let mut slot = host_in_slot(&rt);
    let mut session = slot.take(alloc).expect(&rt, "a session");
    session.settle(2000).expect(&rt, "memory");
    for _ in 0..3 {
        assert!(rt; session.oldest().is_some());
        assert!(rt; session.remove_oldest());
    }
    assert!(rt; session.oldest().is_none());
}
