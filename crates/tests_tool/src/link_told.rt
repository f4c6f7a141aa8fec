use nd_addr::Addr;
use nd_decode::{Body, NeighborSolicitation};
use nd_link::{Refusal, Told};
use nd_out::Out;
use nd_packet::Packet;
use ndpctl_link::*;
use std::alloc::Global;
use std::process::Abort;
use std::test::*;

/// fe80::3656:78ff:fe9a:bcde.
const LINK_LOCAL: Addr = Addr([
    0xfe, 0x80, 0, 0, 0, 0, 0, 0, 0x36, 0x56, 0x78, 0xff, 0xfe, 0x9a, 0xbc, 0xde,
]);

/// The Neighbor Solicitation by which a node tries that address.
const SOLICITATION: [u8; 78] = [
    0x33, 0x33, 0xff, 0x9a, 0xbc, 0xde, 0x34, 0x56, 0x78, 0x9a, 0xbc, 0xde, 0x86, 0xdd, 0x60, 0, 0,
    0, 0, 0x18, 0x3a, 0xff, 0, 0, 0, 0, 0, 0, 0, 0, 0, 0, 0, 0, 0, 0, 0, 0, 0xff, 0x02, 0, 0, 0, 0,
    0, 0, 0, 0, 0, 0x01, 0xff, 0x9a, 0xbc, 0xde, 0x87, 0, 0x53, 0xdf, 0, 0, 0, 0, 0xfe, 0x80, 0, 0,
    0, 0, 0, 0, 0x36, 0x56, 0x78, 0xff, 0xfe, 0x9a, 0xbc, 0xde,
];

/// Node 0 sends it at the start.
fn start(rt: &(impl Abort + AllocGlobal)) -> Told<Global> {
    let mut bytes = Vec::new(rt.alloc());
    bytes.extend_from_slice(&SOLICITATION).expect(rt, "memory");
    let frame = Packet::new(bytes).expect(rt, "too short");
    let outs = vec![in rt.alloc(); (0, Out::Frame(frame))].expect(rt, "memory");
    Told::Node(0, outs)
}

/// A node hears it, and so has a duplicate address.
fn duplicate(rt: &(impl Abort + AllocGlobal), node: usize, at: u64) -> Told<Global> {
    let heard = Out::Heard {
        source: Addr([0; 16]),
        destination: LINK_LOCAL,
        body: Body::Ns(NeighborSolicitation { target: LINK_LOCAL }),
    };
    let duplicate = Out::Duplicate(LINK_LOCAL);
    let outs = vec![in rt.alloc(); (at, heard), (at, duplicate)].expect(rt, "memory");
    Told::Node(node, outs)
}

/// This text is written for what is reported.
fn is_told(rt: &(impl Abort + AllocGlobal), told: &[Told<Global>], wanted: &str) {
    let mut text = String::new(rt.alloc());
    write_told(&mut text, told).expect(rt, "memory");
    assert_eq!(rt; text.as_str(), wanted);
}

#[test]
fn each_line_is_told_of_its_node(rt: HostRuntime) {
    let told = [
        start(&rt),
        duplicate(&rt, 1, 400),
        Told::Node(2, Vec::new(rt.alloc())),
        Told::Refused(2800, Refusal::NoFrame),
    ];
    is_told(
        &rt,
        &told,
        "n0 0 tx 3333ff9abcde3456789abcde86dd6000000000183aff00000000000000000000000000000000ff0200000000000000000001ff9abcde870053df00000000fe80000000000000365678fffe9abcde\n\
        n1 400 heard ns\nn1 400 duplicate fe80::3656:78ff:fe9a:bcde\nlink 2800 refused no-frame\n",
    );
}

#[test]
fn rows_of_a_table_are_told_of_its_node(rt: HostRuntime) {
    let alloc = rt.alloc();
    let mut rows = Vec::new(alloc);
    rows.push(String::from_str(alloc, "server 2001:db8::53 1799000").expect(&rt, "memory"))
        .expect(&rt, "memory");
    rows.push(String::from_str(alloc, "search a.example 1799000").expect(&rt, "memory"))
        .expect(&rt, "memory");
    let mut outs = Vec::new(alloc);
    outs.push((2200, Out::Shown(rows))).expect(&rt, "memory");
    is_told(
        &rt,
        &[Told::Node(3, outs)],
        "n3 2200 server 2001:db8::53 1799000\nn3 2200 search a.example 1799000\nn3 2200 end 2\n",
    );
}

#[test]
fn refusals_are_told_of_the_link(rt: HostRuntime) {
    let told: [Told<Global>; 5] = [
        Told::Refused(9, Refusal::TooLate(10)),
        Told::Refused(10, Refusal::NoNode),
        Told::Refused(11, Refusal::NoFrame),
        Told::Refused(12, Refusal::Own),
        Told::Refused(13, Refusal::Full),
    ];
    is_told(
        &rt,
        &told,
        "link 9 refused past 10\nlink 10 refused no-node\nlink 11 refused no-frame\nlink 12 refused own\n\
        link 13 refused full nodes\n",
    );
}
