use crate::refusing::each_is_refused_once;
use linked_list_allocator::LocalHeap;
use nd_addr::{Addr, Preference};
use nd_routers::{Prefixes, Routers};
use std::process::Abort;
use std::test::*;

const ROUTER: Addr = Addr([0xfe, 0x80, 0, 0, 0, 0, 0, 0, 0, 0, 0, 0, 0, 0, 0, 1]);

/// The calls that take memory, in the order in which a run makes them.
#[derive(Clone, Copy, Debug, PartialEq, Eq)]
enum Call {
    NewRouters,
    NewPrefixes,
    Clear,
}

/// A list of one router: the first call for which there is no memory.
fn run(rt: &impl Abort, heap: &LocalHeap) -> Option<Call> {
    let Ok(mut routers) = Routers::new(heap, 16) else {
        return Some(Call::NewRouters);
    };
    let Ok(prefixes) = Prefixes::new(heap, 64) else {
        return Some(Call::NewPrefixes);
    };
    assert!(rt; prefixes.on_link(0, ROUTER));
    assert!(rt; routers.heard_ra(0, ROUTER, 1800, Preference::High).is_ok());
    match routers.clear() {
        Ok(left) => assert!(rt; left.first() == Some(&ROUTER)),
        Err(_) => {
            assert!(rt; routers.holds(0, ROUTER));
            assert!(rt; routers.len() == 1);
            return Some(Call::Clear);
        }
    }
    assert!(rt; routers.len() == 0);
    None
}

#[test]
fn each_request_of_the_routers_is_refused_once(rt: HostRuntime) -> Result<(), Fail> {
    each_is_refused_once(
        &rt,
        rt.alloc(),
        3,
        |heap| run(&rt, heap).map(|call| call as usize),
    )
}
