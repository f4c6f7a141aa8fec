use crate::refusing::each_is_refused_once;
use linked_list_allocator::LocalHeap;
use nd_addr::Addr;
use nd_nexthop::Choice;
use std::process::Abort;
use std::test::*;

/// The calls that take memory, in the order in which a run makes them.
#[derive(Clone, Copy, Debug, PartialEq, Eq)]
enum Call {
    New,
    First,
    Second,
}

/// 2001:db8:1::n.
fn addr(n: u8) -> Addr {
    Addr([0x20, 0x01, 0x0d, 0xb8, 0, 1, 0, 0, 0, 0, 0, 0, 0, 0, 0, n])
}

/// The target of the newest redirect.
fn newest(choice: &Choice<&LocalHeap>) -> Option<Addr> {
    choice.rows().next().map(|redirect| redirect.target)
}

/// Two destinations are redirected: the first call for which there is no memory.
fn run(rt: &impl Abort, heap: &LocalHeap) -> Option<Call> {
    let Ok(mut choice) = Choice::new(heap, 64, 256) else {
        return Some(Call::New);
    };
    if choice.redirected(addr(1), addr(11)).is_err() {
        assert!(rt; newest(&choice).is_none());
        return Some(Call::First);
    }
    if choice.redirected(addr(2), addr(12)).is_err() {
        assert!(rt; newest(&choice) == Some(addr(11)));
        return Some(Call::Second);
    }
    // One that is there takes none, nor do an end and a clear.
    assert!(rt; choice.redirected(addr(1), addr(13)).is_ok());
    assert!(rt; newest(&choice) == Some(addr(13)));
    choice.target_gone(addr(13));
    assert!(rt; newest(&choice) == Some(addr(12)));
    choice.clear();
    assert!(rt; newest(&choice).is_none());
    assert!(rt; choice.redirected(addr(2), addr(14)).is_ok());
    assert!(rt; newest(&choice) == Some(addr(14)));
    None
}

#[test]
fn each_request_of_the_redirects_is_refused_once(rt: HostRuntime) -> Result<(), Fail> {
    each_is_refused_once(
        &rt,
        rt.alloc(),
        3,
        |heap| run(&rt, heap).map(|call| call as usize),
    )
}
