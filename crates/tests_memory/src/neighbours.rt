use crate::refusing::each_is_refused_once;
use linked_list_allocator::LocalHeap;
use nd_addr::{Addr, Mac};
use nd_neighbour::{Cache, CacheRefusal, News, Packet, Reachability, Times, Use};
use std::process::Abort;
use std::test::*;

const MAC: Mac = Mac([2, 0, 0, 0, 0, 1]);

const TIMES: Times = Times {
    retrans: 1000,
    reachable: 15_000,
};

/// The calls that take memory, in the order in which a run makes them.
#[derive(Clone, Copy, Debug, PartialEq, Eq)]
enum Call {
    New,
    Frame,
    Used,
    Ready,
    Clear,
}

/// fe80::n.
fn addr(n: u8) -> Addr {
    Addr([0xfe, 0x80, 0, 0, 0, 0, 0, 0, 0, 0, 0, 0, 0, 0, 0, n])
}

fn given(n: u8) -> News {
    News::Given {
        addr: addr(n),
        mac: MAC,
        mark: None,
    }
}

/// An Ethernet header, all of whose bytes are this one, if there is memory for it.
fn packet(heap: &LocalHeap, byte: u8) -> Option<Packet<&LocalHeap>> {
    let mut frame = Vec::with_capacity(heap, 14).ok()?;
    frame.extend_from_slice(&[byte; 14]).ok()?;
    Packet::new(frame)
}

fn state(cache: &Cache<&LocalHeap>, n: u8) -> Option<Reachability> {
    cache.entry(0, addr(n)).map(|entry| entry.state)
}

/// Returns true if the cache has the first neighbour alone, and room for another.
fn has_one(cache: &Cache<&LocalHeap>) -> bool {
    state(cache, 1) == Some(Reachability::Stale)
        && state(cache, 2) == None
        && cache.waiting() == 0
        && cache.room(0, addr(2), None)
}

/// Returns true if it has both, and a packet that waits for the second one.
fn has_both(cache: &Cache<&LocalHeap>) -> bool {
    state(cache, 1) == Some(Reachability::Stale)
        && state(cache, 2) == Some(Reachability::Incomplete)
        && cache.waiting() == 1
}

/// A packet is to be sent to a second neighbour: the first call for which there is no memory.
fn use_second<'h>(
    rt: &impl Abort,
    heap: &'h LocalHeap,
    cache: &mut Cache<&'h LocalHeap>,
) -> Option<Call> {
    let Some(first) = packet(heap, 7) else {
        return Some(Call::Frame);
    };
    match cache.used(0, addr(2), first, TIMES) {
        Ok(sent) => {
            assert!(rt;
                matches!(
                    sent,
                    Use::Queued {
                        solicit: true,
                        replaced: None
                    }
                )
            );
            None
        }
        Err((refusal, back)) => {
            // The frame is returned, and the cache is as it was.
            assert!(rt; refusal == CacheRefusal::Memory);
            assert!(rt; back.as_bytes().first() == Some(&7));
            assert!(rt; has_one(cache));
            Some(Call::Used)
        }
    }
}

/// Both are shown, and then none is left: the first call for which there is no memory.
fn clear(rt: &impl Abort, cache: &mut Cache<&LocalHeap>) -> Option<Call> {
    let mut rows = cache.rows(0);
    assert!(rt; rows.next().is_some());
    assert!(rt; rows.next().is_some());
    assert!(rt; rows.next().is_none());
    if cache.ready(2).is_err() {
        assert!(rt; has_both(cache));
        return Some(Call::Ready);
    }
    let Ok(packets) = cache.clear() else {
        assert!(rt; has_both(cache));
        return Some(Call::Clear);
    };
    assert!(rt; packets.len() == 1);
    assert!(rt; cache.waiting() == 0);
    None
}

/// A cache of two, of which one is there: the first call for which there is no memory.
fn run(rt: &impl Abort, heap: &LocalHeap) -> Option<Call> {
    let Ok(mut cache) = Cache::new(heap, 2, 3) else {
        return Some(Call::New);
    };
    assert!(rt; cache.heard(0, given(1), TIMES).is_ok());
    use_second(rt, heap, &mut cache).or_else(|| clear(rt, &mut cache))
}

#[test]
fn each_request_of_the_neighbour_cache_is_refused_once(rt: HostRuntime) -> Result<(), Fail> {
    each_is_refused_once(
        &rt,
        rt.alloc(),
        5,
        |heap| run(&rt, heap).map(|call| call as usize),
    )
}
