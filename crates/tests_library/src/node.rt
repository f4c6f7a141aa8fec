ghost use Rattle.std.specs.Prelude.{◌<◌, ◌^◌};
ghost use Rattle.nd_node.specs.Event.{AreEarly};

use nd_addr::{Addr, Mac, Role};
use nd_neighbour::Reachability;
use nd_nexthop::Hop;
use nd_node::*;
use nd_out::{Reports, write_outs};
use nd_slaac::Transmits;
use rand_core::SeedableRng;
use rand_pcg::Pcg32;
use std::alloc::Global;
use std::process::Abort;
use std::test::*;

const MAC: Mac = Mac([0x34, 0x56, 0x78, 0x9a, 0xbc, 0xde]);

/// A frame that says nothing: the Ethernet type of IPv6, and no packet.
const EMPTY: [u8; 14] = [0, 0, 0, 0, 0, 0, 0, 0, 0, 0, 0, 0, 0x86, 0xdd];

/// The second word of the generator of seed 0 is 0xfc843fd7, which delays the first solicitation by 234 ms.
const STARTED: &str =
    "234 tx 3333ff9abcde3456789abcde86dd6000000000183aff00000000000000000000000000000000ff0200000000000000000001ff9abcde870053df00000000fe80000000000000365678fffe9abcde\n1234 assigned fe80::3656:78ff:fe9a:bcde\n1234 tx 3333000000023456789abcde86dd6000000000103afffe80000000000000365678fffe9abcdeff0200000000000000000000000000028500a78f0000000001013456789abcde\n";

/// A host that starts at 0.
fn host(rt: &(impl Abort + AllocGlobal)) -> Node<Pcg32, Global> {
    let generator = Pcg32::seed_from_u64(0);
    Node::new(
        rt.alloc(),
        Role::Host,
        MAC,
        0,
        Transmits::ONE,
        Limits::usual(),
        generator,
    )
    .expect(rt, "memory")
}

/// For events at a host that starts at 0 it reports this, after what it reports of its start.
fn tells(rt: &(impl Abort + AllocGlobal), events: &[(u64, Event<Global>)], wanted: &str)
    requires { AreEarly events.now }
{
    let mut node = host(rt);
    let mut outs = Reports::new(rt.alloc()).expect(rt, "memory");
    node.run(events, &mut outs).expect(rt, "memory");
    let mut text = String::new(rt.alloc());
    write_outs(&mut text, &mut outs).expect(rt, "memory");
    assert!(rt; text.as_str().strip_prefix(STARTED) == Some(wanted));
}

/// Passes events one after the other; all that is due up to each is done first.
#[test]
fn events_run_in_their_order(rt: HostRuntime) {
    let events = [(3000, received(&rt, &EMPTY)), (2999, Event::Passes)];
    tells(
        &rt,
        &events,
        "3000 drop 3 HeaderShort\n2999 refused past 3000\n",
    );
}

/// Receives a frame.
fn received(rt: &(impl Abort + AllocGlobal), bytes: &[u8]) -> Event<Global> {
    let mut frame = Vec::new(rt.alloc());
    frame.extend_from_slice(bytes).expect(rt, "memory");
    Event::Receives(frame)
}

/// A whole packet from the host's link-local address to ff02::5, with a hop limit of 1.
const TO_GROUP: [u8; 48] = [
    0x60, 0x00, 0x00, 0x00, 0x00, 0x08, 0x00, 0x01, 0xfe, 0x80, 0x00, 0x00, 0x00, 0x00, 0x00, 0x00,
    0x36, 0x56, 0x78, 0xff, 0xfe, 0x9a, 0xbc, 0xde, 0xff, 0x02, 0x00, 0x00, 0x00, 0x00, 0x00, 0x00,
    0x00, 0x00, 0x00, 0x00, 0x00, 0x00, 0x00, 0x05, 0x3a, 0x00, 0x05, 0x02, 0x00, 0x00, 0x01, 0x00,
];

/// Carries a whole packet.
fn carried(rt: &(impl Abort + AllocGlobal), bytes: &[u8]) -> Event<Global> {
    let Some(packet) = read_whole(bytes) else {
        panic!(rt; "it is no whole packet");
    };
    let mut payload = Vec::new(rt.alloc());
    payload
        .extend_from_slice(packet.payload)
        .expect(rt, "memory");
    Event::Carries(WholePacket {
        header: packet.header,
        payload,
    })
}

/// A whole packet goes as it is, with its hop limit, and one from another source doesn't go at a host.
#[test]
fn a_whole_packet_goes_as_it_is(rt: HostRuntime) {
    let mut of_another = TO_GROUP;
    of_another[23] = 0;
    let events = [
        (3000, carried(&rt, &TO_GROUP)),
        (3000, carried(&rt, &of_another)),
    ];
    tells(
        &rt,
        &events,
        "3000 tx 3333000000053456789abcde86dd6000000000080001fe80000000000000365678fffe9abcdeff0200000000000000000000000000053a00050200000100\n3000 refused not-ours fe80::3656:78ff:fe9a:bc00\n",
    );
}

/// Bytes are a whole packet if they have version 6, a header, and as many bytes behind it as its payload length says (RFC 8200, section 3).
#[test]
fn a_packet_is_whole_to_the_byte(rt: HostRuntime) {
    assert!(rt; read_whole(&TO_GROUP).is_some());
    assert!(rt; read_whole(&TO_GROUP[..47]).is_none());
    assert!(rt; read_whole(&TO_GROUP[..39]).is_none());
    let mut longer = [0; 49];
    longer[..48].copy_from_slice(&TO_GROUP);
    assert!(rt; read_whole(&longer).is_none());
    let mut of_version_4 = TO_GROUP;
    of_version_4[0] = 0x45;
    assert!(rt; read_whole(&of_version_4).is_none());
}

/// A router, and a host that doesn't answer.
const ROUTER: Addr = Addr([0xfe, 0x80, 0, 0, 0, 0, 0, 0, 0, 0, 0, 0xff, 0xfe, 0, 0, 1]);

const SILENT: Addr = Addr([0xfe, 0x80, 0, 0, 0, 0, 0, 0, 0, 0, 0, 0, 0, 0, 0, 6]);

/// The router is one for 1,800 seconds, has 02:00:00:00:00:01, and announces a prefix that is on the link for a second.
const ADVERTISEMENT: [u8; 110] = [
    0x33, 0x33, 0x00, 0x00, 0x00, 0x01, 0x02, 0x00, 0x00, 0x00, 0x00, 0x01, 0x86, 0xdd, 0x60, 0x00,
    0x00, 0x00, 0x00, 0x38, 0x3a, 0xff, 0xfe, 0x80, 0x00, 0x00, 0x00, 0x00, 0x00, 0x00, 0x00, 0x00,
    0x00, 0xff, 0xfe, 0x00, 0x00, 0x01, 0xff, 0x02, 0x00, 0x00, 0x00, 0x00, 0x00, 0x00, 0x00, 0x00,
    0x00, 0x00, 0x00, 0x00, 0x00, 0x01, 0x86, 0x00, 0xc1, 0xbd, 0x40, 0x00, 0x07, 0x08, 0x00, 0x00,
    0x00, 0x00, 0x00, 0x00, 0x00, 0x00, 0x01, 0x01, 0x02, 0x00, 0x00, 0x00, 0x00, 0x01, 0x03, 0x04,
    0x40, 0x80, 0x00, 0x00, 0x00, 0x01, 0x00, 0x00, 0x00, 0x00, 0x00, 0x00, 0x00, 0x00, 0x20, 0x01,
    0x0d, 0xb8, 0x00, 0x01, 0x00, 0x00, 0x00, 0x00, 0x00, 0x00, 0x00, 0x00, 0x00, 0x00,
];

/// A host on that prefix, and its solicitation for this one, with its link-layer address 02:00:00:00:00:06.
const NEAR: Addr = Addr([0x20, 1, 0x0d, 0xb8, 0, 1, 0, 0, 0, 0, 0, 0, 0, 0, 0, 6]);

const SOLICITATION: [u8; 86] = [
    0x34, 0x56, 0x78, 0x9a, 0xbc, 0xde, 0x02, 0x00, 0x00, 0x00, 0x00, 0x06, 0x86, 0xdd, 0x60, 0x00,
    0x00, 0x00, 0x00, 0x20, 0x3a, 0xff, 0x20, 0x01, 0x0d, 0xb8, 0x00, 0x01, 0x00, 0x00, 0x00, 0x00,
    0x00, 0x00, 0x00, 0x00, 0x00, 0x06, 0xfe, 0x80, 0x00, 0x00, 0x00, 0x00, 0x00, 0x00, 0x36, 0x56,
    0x78, 0xff, 0xfe, 0x9a, 0xbc, 0xde, 0x87, 0x00, 0x75, 0x3d, 0x00, 0x00, 0x00, 0x00, 0xfe, 0x80,
    0x00, 0x00, 0x00, 0x00, 0x00, 0x00, 0x36, 0x56, 0x78, 0xff, 0xfe, 0x9a, 0xbc, 0xde, 0x01, 0x01,
    0x02, 0x00, 0x00, 0x00, 0x00, 0x06,
];

/// An address that no prefix has.
const FAR: Addr = Addr([0x20, 1, 0x0d, 0xb8, 0, 2, 0, 0, 0, 0, 0, 0, 0, 0, 0, 1]);

/// The path at a moment up to which nothing is due.
fn path(rt: &impl Abort, node: &Node<Pcg32, Global>, now: u64, destination: Addr) -> Path {
    if !node.settled(now) {
        panic!(rt; "something is due");
    }
    node.path(now, destination)
}

/// A lease ends where something is due next, where REACHABLE ends (RFC 4861, section 7.3.2), or where a prefix does (section 6.3.4).
#[test]
fn a_lease_ends_with_the_first_of_its_ends(rt: HostRuntime) {
    let mut node = host(&rt);
    let mut outs = Reports::new(rt.alloc()).expect(&rt, "memory");
    let heard = node
        .event(2000, &received(&rt, &ADVERTISEMENT), &mut outs)
        .expect(&rt, "memory");
    assert!(rt; heard == Answer::Done);
    let stale = Path {
        hop: Hop::Direct,
        mac: Some(Mac([2, 0, 0, 0, 0, 1])),
        state: Some(Reachability::Stale),
        until: 2100,
    };
    assert!(rt; path(&rt, &node, 2100, ROUTER) == stale);
    let confirmed = node
        .event(2200, &Event::Confirms(ROUTER), &mut outs)
        .expect(&rt, "memory");
    assert!(rt; confirmed == Answer::Done);
    // The prefix ends a second after its announcement.
    let reachable = Path {
        state: Some(Reachability::Reachable),
        until: 3000,
        ..stale
    };
    assert!(rt; path(&rt, &node, 2300, ROUTER) == reachable);
    // Then REACHABLE ends, a ReachableTime after the confirmation.
    let end = 2200 + node.parameters().reachable_time();
    assert!(rt; path(&rt, &node, 3500, ROUTER).until == end);
    // The second solicitation of the other host is due a RetransTimer after the first.
    let asked = node
        .event(3600, &Event::Resolves(SILENT), &mut outs)
        .expect(&rt, "memory");
    assert!(rt; asked == Answer::Done);
    assert!(rt; path(&rt, &node, 3700, ROUTER).until == 4600);
    let incomplete = Path {
        hop: Hop::Direct,
        mac: None,
        state: Some(Reachability::Incomplete),
        until: 3700,
    };
    assert!(rt; path(&rt, &node, 3700, SILENT) == incomplete);
    let to_all = Path {
        hop: Hop::Direct,
        mac: Some(Mac([0x33, 0x33, 0, 0, 0, 1])),
        state: None,
        until: 4600,
    };
    assert!(rt; path(&rt, &node, 3700, Addr::ALL_NODES) == to_all);
}

/// Takes an event that is answered with `Done`; all that is due up to it is done first.
fn takes(
    rt: &(impl Abort + AllocGlobal),
    node: &mut Node<Pcg32, Global>,
    now: u64,
    event: &Event<Global>,
)
    requires { now < 2 ^ 62 }
{
    let mut outs = Reports::new(rt.alloc()).expect(rt, "memory");
    let answer = node.event(now, event, &mut outs).expect(rt, "memory");
    assert!(rt; answer == Answer::Done);
}

/// A host that has heard the router at 2,000.
fn informed(rt: &(impl Abort + AllocGlobal)) -> Node<Pcg32, Global> {
    let mut node = host(rt);
    takes(rt, &mut node, 2000, &received(rt, &ADVERTISEMENT));
    node
}

/// At the end of a prefix its destinations go to the router (RFC 4861, sections 5.2 and 6.3.4).
#[test]
fn the_next_hop_is_another_one_where_a_prefix_ends(rt: HostRuntime) {
    let mut node = informed(&rt);
    takes(&rt, &mut node, 2100, &received(&rt, &SOLICITATION));
    let lease = path(&rt, &node, 2200, NEAR);
    assert!(rt; lease.mac == Some(Mac([2, 0, 0, 0, 0, 6])));
    assert!(rt; lease.until == 3000);
    assert!(rt; path(&rt, &node, 2999, NEAR) == lease);
    assert!(rt; path(&rt, &node, 3000, NEAR).hop == Hop::Via(ROUTER));
}

/// At the end of REACHABLE a packet is the first use of a STALE neighbour (section 7.3.3).
#[test]
fn the_neighbour_is_stale_where_reachable_ends(rt: HostRuntime) {
    let mut node = informed(&rt);
    takes(&rt, &mut node, 2200, &Event::Confirms(ROUTER));
    let lease = path(&rt, &node, 3000, FAR);
    assert!(rt; lease.state == Some(Reachability::Reachable));
    assert!(rt; lease.until == 2200 + node.parameters().reachable_time());
    assert!(rt; path(&rt, &node, lease.until - 1, FAR) == lease);
    let stale = Path {
        state: Some(Reachability::Stale),
        ..lease
    };
    assert!(rt; path(&rt, &node, lease.until, FAR) == stale);
}

/// At the next due date a neighbour that doesn't answer is gone (section 7.3.3): the first probe is sent 5 s after the use, and two more a RetransTimer apart.
#[test]
fn the_neighbour_is_gone_where_something_is_due(rt: HostRuntime) {
    let mut node = informed(&rt);
    takes(&rt, &mut node, 3000, &Event::Resolves(ROUTER));
    takes(&rt, &mut node, 10_500, &Event::Passes);
    let lease = path(&rt, &node, 10_500, FAR);
    assert!(rt; lease.state == Some(Reachability::Probe));
    assert!(rt; lease.until == 11_000);
    assert!(rt; path(&rt, &node, 10_999, FAR) == lease);
    takes(&rt, &mut node, 11_000, &Event::Passes);
    assert!(rt; path(&rt, &node, 11_000, FAR).mac == None);
}
