ghost use Rattle.std.specs.Prelude.{[], ◌∷◌, false};
ghost use Rattle.nd_nexthop.specs.DefaultRouterKept.{router_of};

use crate::node::{AMPLE, exhaust};
use linked_list_allocator::LocalHeap;
use nd_addr::{Addr, Preference};
use nd_nexthop::{Candidate, Choice, Hop, View};
use std::process::Abort;
use std::test::*;

/// A host with one default router, and nothing else.
#[derive(Clone, Copy, Debug)]
struct OneRouter {
    router: Candidate,
}

impl View for OneRouter {
    ghost use Rattle.std.specs.Prelude.{[], ◌∷◌, false};
    ghost use Rattle.nd_nexthop.specs.DefaultRouterKept.{router_of};

    ghost own = { λ v address. false };

    ghost linked = { λ v address. false };

    ghost candidates = { λ v. router_of v.router ∷ [] };

    fn is_own(&self, _addr: Addr) -> bool {
        false
    }

    fn on_link(&self, _addr: Addr) -> bool {
        false
    }

    fn routers(&self) -> usize {
        1
    }

    fn router(&self, i: usize) -> Option<Candidate> {
        if i == 0 { Some(self.router) } else { None }
    }
}

/// The number of destinations: one more than are remembered.
const DESTINATIONS: u16 = 257;

/// Where no pair can be remembered for lack of memory, each destination has its next hop all the same.
#[test]
fn next_hops_are_found_without_memory(rt: HostRuntime) {
    let router = Addr([0xfe, 0x80, 0, 0, 0, 0, 0, 0, 0, 0, 0, 0, 0, 0, 0, 1]);
    let view = OneRouter {
        router: Candidate {
            addr: router,
            usable: true,
            preference: Preference::Medium,
            failed: None,
        },
    };
    let heap = LocalHeap::new(rt.alloc(), AMPLE).expect(&rt, "memory");
    let mut choice = Choice::new(&heap, 64, 256).expect(&rt, "memory");
    let blocks = exhaust(&rt, &heap);
    for _ in 0..2 {
        for number in 0..DESTINATIONS {
            let destination = Addr::from_bits(
                0x2001_0db8_0001_0000_0000_0000_0000_0000 | u128::from(number),
            );
            assert!(rt; choice.next_hop(0, destination, &view) == Hop::Via(router));
        }
    }
    assert!(rt; choice.remembered() == 0);
    assert!(rt; !blocks.is_empty());
}
