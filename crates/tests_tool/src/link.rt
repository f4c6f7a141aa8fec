ghost use Rattle.std.specs.Prelude.{◌<◌, ◌^◌};

use crate::link_runs::joined;
use nd_addr::{Mac, Role};
use nd_link::*;
use nd_node::{Event, Request};
use nd_out::write_node_out;
use nd_slaac::Transmits;
use rand_core::SeedableRng;
use rand_pcg::Pcg32;
use std::alloc::Global;
use std::process::Abort;
use std::test::*;

const MAC: Mac = Mac([0x34, 0x56, 0x78, 0x9a, 0xbc, 0xde]);

/// The solicitation for the link-local address of `MAC`, and the Router Solicitation from it.
const F1: &str =
    "3333ff9abcde3456789abcde86dd6000000000183aff00000000000000000000000000000000ff0200000000000000000001ff9abcde870053df00000000fe80000000000000365678fffe9abcde";

const F2: &str =
    "3333000000023456789abcde86dd6000000000103afffe80000000000000365678fffe9abcdeff0200000000000000000000000000028500a78f0000000001013456789abcde";

/// The answer to that solicitation by the node that has the address.
const F9: &str =
    "3333000000013456789abcde86dd6000000000203afffe80000000000000365678fffe9abcdeff02000000000000000000000000000188001a3020000000fe80000000000000365678fffe9abcde02013456789abcde";

/// A host that starts: the second word of the generator of seed 0 is 0xfc843fd7, which delays its first solicitation by 234 ms.
fn host() -> LinkEvent<Pcg32, Global> {
    LinkEvent::Starts(Role::Host, MAC, Transmits::ONE, Pcg32::seed_from_u64(0))
}

/// The lines of what is reported, each after the number of its node.
fn write_lines(rt: &impl Abort, text: &mut String<Global>, told: &[Told<Global>]) {
    for one in told {
        match one {
            Told::Node(node, outs) => {
                for (at, out) in outs {
                    write_node_out(text, *node, *at, out).expect(rt, "memory");
                }
            }
            Told::Refused(2799, Refusal::TooLate(2800)) => {
                text.push_str("link 2799 refused past 2800\n")
                    .expect(rt, "memory");
            }
            Told::Refused(2800, Refusal::NoNode) => text
                .push_str("link 2800 refused no-node\n")
                .expect(rt, "memory"),
            Told::Refused(2800, Refusal::NoFrame) => text
                .push_str("link 2800 refused no-frame\n")
                .expect(rt, "memory"),
            Told::Refused(2800, Refusal::Own) => text
                .push_str("link 2800 refused own\n")
                .expect(rt, "memory"),
            Told::Refused(..) => panic!(rt; "another refusal"),
        }
    }
}

/// These lines are reported: the text is written in parts.
fn is_told(rt: &impl Abort, alloc: Global, told: &[Told<Global>], wanted: &[&str]) {
    let mut text = String::new(alloc);
    write_lines(rt, &mut text, told);
    assert_eq!(rt; text.as_str(), joined(rt, alloc, wanted).as_str());
}

/// Passes an event. A function of its own, so that no test's proof carries what an event adds.
fn comes<W: Wire>(
    rt: &impl Abort,
    link: &mut Link<W, Pcg32, Global>,
    now: u64,
    event: LinkEvent<Pcg32, Global>,
    told: &mut Vec<Told<Global>>,
)
    requires { now < 2 ^ 62 }
{
    link.event(now, event, told).expect(rt, "memory");
}

/// Two hosts that try one address at a time find it a duplicate (RFC 4862, section 5.4.3).
fn two_try<W: Wire + Drop>(rt: &impl Abort, alloc: Global, wire: W) {
    let mut link = Link::new(alloc, wire);
    let mut told = Vec::new(alloc);
    comes(rt, &mut link, 0, host(), &mut told);
    comes(rt, &mut link, 0, host(), &mut told);
    comes(rt, &mut link, 400, LinkEvent::Delivers(1, 0), &mut told);
    comes(rt, &mut link, 400, LinkEvent::Delivers(0, 1), &mut told);
    is_told(
        rt,
        alloc,
        &told,
        &[
            "n0 234 tx ",
            F1,
            "\nn1 234 tx ",
            F1,
            "\nn1 400 heard ns\nn1 400 duplicate fe80::3656:78ff:fe9a:bcde\nn0 400 heard ns\nn0 400 duplicate fe80::3656:78ff:fe9a:bcde\n",
        ],
    );
    assert!(rt; link.failures() == 0);
}

#[test]
fn two_hosts_that_try_one_address_find_it_a_duplicate(rt: HostRuntime) {
    two_try(&rt, rt.alloc(), MemoryWire);
}

#[test]
fn over_datagrams_they_find_it_too(rt: HostRuntime) {
    let wire = UdpWire::new(&rt, rt.alloc(), 2).expect(&rt, "sockets");
    two_try(&rt, rt.alloc(), wire);
}

/// A node that has an address answers one that tries it later (RFC 4861, section 7.2.4); and each refusal of the link.
#[test]
fn a_holder_answers(rt: HostRuntime) {
    let mut link = Link::new(rt.alloc(), MemoryWire);
    let mut told = Vec::new(rt.alloc());
    comes(&rt, &mut link, 0, host(), &mut told);
    comes(&rt, &mut link, 2000, host(), &mut told);
    comes(&rt, &mut link, 2400, LinkEvent::Delivers(0, 2), &mut told);
    comes(&rt, &mut link, 2800, LinkEvent::Delivers(1, 3), &mut told);
    comes(&rt, &mut link, 2800, LinkEvent::Delivers(0, 9), &mut told);
    comes(&rt, &mut link, 2800, LinkEvent::Delivers(0, 3), &mut told);
    comes(&rt, &mut link, 2800, LinkEvent::Delivers(2, 0), &mut told);
    comes(
        &rt,
        &mut link,
        2800,
        LinkEvent::Comes(2, Request::Event(Event::Passes)),
        &mut told,
    );
    comes(&rt, &mut link, 2799, LinkEvent::Passes, &mut told);
    is_told(
        &rt,
        rt.alloc(),
        &told,
        &[
            "n0 234 tx ",
            F1,
            "\nn0 1234 assigned fe80::3656:78ff:fe9a:bcde\nn0 1234 tx ",
            F2,
            "\nn1 2234 tx ",
            F1,
            "\nn0 2400 heard ns\nn0 2400 tx ",
            F9,
            "\nn1 2800 heard na\nn1 2800 duplicate fe80::3656:78ff:fe9a:bcde\nlink 2800 refused no-frame\nlink 2800 refused own\nlink 2800 refused no-node\nlink 2800 refused no-node\nlink 2799 refused past 2800\n",
        ],
    );
}

/// If a frame may take half of RetransTimer, the answer can arrive when the address is assigned, and then two nodes have it: so a timely link
/// must be faster (RFC 4862, section 5.4).
#[test]
fn an_answer_after_retrans_timer_is_too_late(rt: HostRuntime) {
    let mut link = Link::new(rt.alloc(), MemoryWire);
    let mut told = Vec::new(rt.alloc());
    comes(&rt, &mut link, 0, host(), &mut told);
    comes(&rt, &mut link, 2000, host(), &mut told);
    comes(&rt, &mut link, 2734, LinkEvent::Delivers(0, 2), &mut told);
    comes(&rt, &mut link, 3234, LinkEvent::Delivers(1, 3), &mut told);
    is_told(
        &rt,
        rt.alloc(),
        &told,
        &[
            "n0 234 tx ",
            F1,
            "\nn0 1234 assigned fe80::3656:78ff:fe9a:bcde\nn0 1234 tx ",
            F2,
            "\nn1 2234 tx ",
            F1,
            "\nn0 2734 heard ns\nn0 2734 tx ",
            F9,
            "\nn1 3234 assigned fe80::3656:78ff:fe9a:bcde\nn1 3234 tx ",
            F2,
            "\nn1 3234 heard na\n",
        ],
    );
}

/// A frame that arrives twice is heard twice, and one that arrives late is heard.
#[test]
fn repeated_and_late_frames_are_heard(rt: HostRuntime) {
    let mut link = Link::new(rt.alloc(), MemoryWire);
    let mut told = Vec::new(rt.alloc());
    comes(&rt, &mut link, 0, host(), &mut told);
    comes(&rt, &mut link, 0, host(), &mut told);
    comes(&rt, &mut link, 1100, LinkEvent::Delivers(1, 0), &mut told);
    comes(&rt, &mut link, 1100, LinkEvent::Delivers(1, 0), &mut told);
    is_told(
        &rt,
        rt.alloc(),
        &told,
        &[
            "n0 234 tx ",
            F1,
            "\nn1 234 tx ",
            F1,
            "\nn1 1100 heard ns\nn1 1100 duplicate fe80::3656:78ff:fe9a:bcde\nn1 1100 drop 19 NotForUs\n",
        ],
    );
}

#[test]
fn a_seventeenth_node_is_refused(rt: HostRuntime) {
    let mut link = Link::new(rt.alloc(), MemoryWire);
    let mut told = Vec::new(rt.alloc());
    for _ in 0..MAX_NODES {
        comes(&rt, &mut link, 7, host(), &mut told);
    }
    assert!(rt; told.is_empty());
    comes(&rt, &mut link, 7, host(), &mut told);
    assert!(rt; matches!(&told[..], [Told::Refused(7, Refusal::Full)]));
}

/// If the wire fails, all that was due is done, the receiver has heard nothing, and the same delivery may be tried again.
#[test]
fn a_fault_of_the_wire_leaves_the_turns(rt: HostRuntime) {
    let mut link = Link::new(rt.alloc(), FailingWire::new(MemoryWire, 0));
    let mut told = Vec::new(rt.alloc());
    comes(&rt, &mut link, 0, host(), &mut told);
    comes(&rt, &mut link, 0, host(), &mut told);
    assert!(rt; link.event(400, LinkEvent::Delivers(1, 0), &mut told) == Err(LinkFault::Wire));
    assert!(rt; link.failures() == 1);
    comes(&rt, &mut link, 400, LinkEvent::Delivers(1, 0), &mut told);
    is_told(
        &rt,
        rt.alloc(),
        &told,
        &[
            "n0 234 tx ",
            F1,
            "\nn1 234 tx ",
            F1,
            "\nn1 400 heard ns\nn1 400 duplicate fe80::3656:78ff:fe9a:bcde\n",
        ],
    );
    assert!(rt; link.failures() == 1);
}

/// One call takes events, up to a fault of the wire, and those that are left by another.
#[test]
fn events_come_one_after_the_other(rt: HostRuntime) {
    let mut link = Link::new(rt.alloc(), FailingWire::new(MemoryWire, 1));
    let mut told = Vec::new(rt.alloc());
    let mut events = Vec::new(rt.alloc());
    events.push((0, host())).expect(&rt, "memory");
    events.push((0, host())).expect(&rt, "memory");
    events
        .push((400, LinkEvent::Delivers(1, 0)))
        .expect(&rt, "memory");
    events
        .push((400, LinkEvent::Delivers(0, 1)))
        .expect(&rt, "memory");
    assert!(rt; link.run(events, &mut told) == Err(LinkFault::Wire));
    let mut rest = Vec::new(rt.alloc());
    rest.push((400, LinkEvent::Delivers(0, 1)))
        .expect(&rt, "memory");
    link.run(rest, &mut told).expect(&rt, "memory");
    is_told(
        &rt,
        rt.alloc(),
        &told,
        &[
            "n0 234 tx ",
            F1,
            "\nn1 234 tx ",
            F1,
            "\nn1 400 heard ns\nn1 400 duplicate fe80::3656:78ff:fe9a:bcde\nn0 400 heard ns\nn0 400 duplicate fe80::3656:78ff:fe9a:bcde\n",
        ],
    );
    assert!(rt; link.failures() == 1);
}
