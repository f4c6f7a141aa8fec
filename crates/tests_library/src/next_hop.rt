ghost use Rattle.std.specs.Prelude.{◌≡◌};
ghost use Rattle.nd_addr.specs.Number.{holds};

use nd_addr::{Addr, Preference, Prefix};
use nd_nexthop::*;
use std::alloc::Global;
use std::process::Abort;
use std::test::*;

/// fe80::n.
fn link_local(n: u8) -> Addr {
    Addr([0xfe, 0x80, 0, 0, 0, 0, 0, 0, 0, 0, 0, 0, 0, 0, 0, n])
}

/// 2001:db8:net::n.
fn global(net: u8, n: u8) -> Addr {
    Addr([0x20, 0x01, 0x0d, 0xb8, 0, net, 0, 0, 0, 0, 0, 0, 0, 0, 0, n])
}

/// 2001:db8::n.
fn on_link(n: u16) -> Addr {
    let [high, low] = n.to_be_bytes();
    Addr([
        0x20, 0x01, 0x0d, 0xb8, 0, 0, 0, 0, 0, 0, 0, 0, 0, 0, high, low,
    ])
}

/// A node with one address of its own, one prefix on its link, and some default routers.
#[derive(Clone, Copy, Debug)]
struct Node<'a> {
    own: Addr,
    prefix: Prefix,
    routers: &'a [Candidate],
}

impl View for Node<'_> {
    ghost use Rattle.std.specs.Prelude.{map, bytes_eq};
    ghost use Rattle.nd_addr.specs.Number.{holds};
    ghost use Rattle.nd_nexthop.specs.DefaultRouterKept.{router_of};

    ghost own = { λ n address. bytes_eq address n.own.0 };

    ghost linked = { λ n address. holds n.prefix address };

    ghost candidates = { λ n. map router_of n.routers.now };

    fn is_own(&self, addr: Addr) -> bool {
        addr == self.own
    }

    fn on_link(&self, addr: Addr) -> bool {
        is_in(&self.prefix, addr)
    }

    fn routers(&self) -> usize {
        self.routers.len()
    }

    fn router(&self, i: usize) -> Option<Candidate> {
        self.routers.get(i).copied()
    }
}

fn is_in(prefix: &Prefix, addr: Addr) -> bool
    ensures { result ≡ holds prefix.now addr.0 }
{
    prefix.holds(addr)
}

/// The node fe80::1 on the link of 2001:db8::/64.
fn make_node(routers: &[Candidate]) -> Option<Node<'_>> {
    Some(Node {
        own: link_local(1),
        prefix: Prefix::new(global(0, 0), 64)?,
        routers,
    })
}

fn usable(n: u8, failed: Option<u64>) -> Candidate {
    Candidate {
        addr: link_local(n),
        usable: true,
        preference: Preference::Medium,
        failed,
    }
}

/// The number of redirects that are kept.
fn count(choice: &Choice<Global>) -> u8 {
    let mut n = 0u8;
    for _ in choice.rows() {
        n = n.saturating_add(1);
    }
    n
}

#[test]
fn keeps_64_redirects(rt: HostRuntime) {
    let none: [Candidate; 0] = [];
    let mut choice = Choice::new(rt.alloc(), 64, 256).expect(&rt, "memory");
    for n in 0..64u8 {
        choice
            .redirected(global(1, n), link_local(n))
            .expect(&rt, "memory");
    }
    let Some(view) = make_node(&none) else {
        panic!(rt; "no node");
    };
    // An ended one keeps its place.
    choice.target_gone(link_local(2));
    assert!(rt; choice.next_hop(0, global(1, 2), &view) == Hop::NoRoute);
    assert!(rt; count(&choice) == 63);
    // Asking changes no order: a 65th evicts the first.
    assert!(rt; choice.next_hop(0, global(1, 0), &view) == Hop::Via(link_local(0)));
    choice
        .redirected(global(1, 64), link_local(64))
        .expect(&rt, "memory");
    assert!(rt; choice.next_hop(0, global(1, 0), &view) == Hop::NoRoute);
    assert!(rt; choice.next_hop(0, global(1, 1), &view) == Hop::Via(link_local(1)));
    assert!(rt; count(&choice) == 63);
    // One that is redirected again is the newest, and evicts none.
    choice
        .redirected(global(1, 1), link_local(99))
        .expect(&rt, "memory");
    assert!(rt; choice.next_hop(0, global(1, 1), &view) == Hop::Via(link_local(99)));
    assert!(rt; count(&choice) == 63);
    // The next one evicts the one that ended, the one after that one that is kept.
    choice
        .redirected(global(1, 65), link_local(65))
        .expect(&rt, "memory");
    assert!(rt; count(&choice) == 64);
    choice
        .redirected(global(1, 66), link_local(66))
        .expect(&rt, "memory");
    assert!(rt; count(&choice) == 64);
    assert!(rt; choice.next_hop(0, global(1, 3), &view) == Hop::NoRoute);
    assert!(rt; choice.next_hop(0, global(1, 4), &view) == Hop::Via(link_local(4)));
}

/// 257 destinations on the link are asked for at one moment.
#[test]
fn remembers_256_destinations(rt: HostRuntime) {
    let none: [Candidate; 0] = [];
    let Some(view) = make_node(&none) else {
        panic!(rt; "no node");
    };
    let mut choice = Choice::new(rt.alloc(), 64, 256).expect(&rt, "memory");
    assert!(rt; choice.remembered() == 0);
    for n in 0..256u16 {
        assert!(rt; choice.next_hop(0, on_link(n), &view) == Hop::Direct);
    }
    assert!(rt; choice.remembered() == 256);
    // The one that was looked up least recently is evicted.
    assert!(rt; choice.next_hop(0, on_link(256), &view) == Hop::Direct);
    assert!(rt; choice.remembered() == 256);
    // A destination that is asked for again takes no other place.
    assert!(rt; choice.next_hop(0, on_link(256), &view) == Hop::Direct);
    assert!(rt; choice.remembered() == 256);
    choice.changed();
    assert!(rt; choice.remembered() == 0);
}

#[test]
fn remembers_up_to_its_last_moment(rt: HostRuntime) {
    let routers = [usable(9, None)];
    let none: [Candidate; 0] = [];
    let mut choice = Choice::new(rt.alloc(), 64, 256).expect(&rt, "memory");
    choice.until(Some(5));
    let Some(view) = make_node(&routers) else {
        panic!(rt; "no node");
    };
    assert!(rt; choice.next_hop(5, global(1, 1), &view) == Hop::Via(link_local(9)));
    // If it is asked and no change was noted, it returns what it remembers, and afterwards what the view gives.
    let Some(view) = make_node(&none) else {
        panic!(rt; "no node");
    };
    assert!(rt; choice.is_asked(5));
    assert!(rt; choice.next_hop(5, global(1, 1), &view) == Hop::Via(link_local(9)));
    assert!(rt; !choice.is_asked(6));
    assert!(rt; choice.next_hop(6, global(1, 1), &view) == Hop::NoRoute);
    // What is asked for afterwards isn't remembered.
    assert!(rt; choice.next_hop(6, global(1, 2), &view) == Hop::NoRoute);
    assert!(rt; choice.remembered() == 1);
    // A redirect forgets all, and so does the end of its target.
    choice
        .redirected(global(1, 1), link_local(2))
        .expect(&rt, "memory");
    assert!(rt; choice.remembered() == 0);
    assert!(rt; choice.next_hop(5, global(1, 1), &view) == Hop::Via(link_local(2)));
    assert!(rt; choice.remembered() == 1);
    choice.target_gone(link_local(2));
    assert!(rt; choice.remembered() == 0);
    assert!(rt; choice.next_hop(5, global(1, 1), &view) == Hop::NoRoute);
}
