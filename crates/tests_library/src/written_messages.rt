use nd_addr::{Addr, Mac, Preference, Prefix};
use nd_message::*;
use std::alloc::Global;
use std::process::Abort;
use std::test::*;

/// 2001:db8::9
const NEAR: Addr = Addr([
    0x20, 0x01, 0x0d, 0xb8, 0, 0, 0, 0, 0, 0, 0, 0, 0, 0, 0, 0x09,
]);

/// 2001:db8::53
const SERVER: Addr = Addr([
    0x20, 0x01, 0x0d, 0xb8, 0, 0, 0, 0, 0, 0, 0, 0, 0, 0, 0, 0x53,
]);

/// fe80::ff:fe00:1
const ROUTER: Addr = Addr([
    0xfe, 0x80, 0, 0, 0, 0, 0, 0, 0, 0, 0, 0xff, 0xfe, 0, 0, 0x01,
]);

/// 2001:db8::
const DOCUMENTATION: Addr = Addr([0x20, 0x01, 0x0d, 0xb8, 0, 0, 0, 0, 0, 0, 0, 0, 0, 0, 0, 0]);

const BODY: RouterAdvertisement = RouterAdvertisement {
    hop_limit: 64,
    managed: false,
    other: false,
    preference: Preference::Medium,
    router_lifetime: 1800,
    reachable_time: 0,
    retrans_timer: 0,
};

/// A message with one option.
fn message_with(
    rt: &(impl Abort + AllocGlobal),
    body: Body,
    option: Opt<Global>,
) -> Message<Global> {
    let mut options = Vec::new(rt.alloc());
    options.push(option).expect(rt, "memory");
    Message { body, options }
}

/// Returns true if an advertisement with this server so many times is well-formed.
fn serves(rt: &(impl Abort + AllocGlobal), server: Addr, count: usize) -> bool {
    let mut servers = Vec::new(rt.alloc());
    for _ in 0..count {
        servers.push(server).expect(rt, "memory");
    }
    let lifetime = 0xffff_ffff;
    let message = message_with(rt, Body::Ra(BODY), Opt::Rdnss { lifetime, servers });
    message.is_well_formed()
}

#[test]
fn tells_well_formed_servers(rt: HostRuntime) {
    assert!(rt; !serves(&rt, SERVER, 0));
    assert!(rt; serves(&rt, SERVER, 1));
    assert!(rt; serves(&rt, SERVER, 127));
    assert!(rt; !serves(&rt, SERVER, 128));
    assert!(rt; !serves(&rt, Addr::ALL_NODES, 1));
    assert!(rt; !serves(&rt, Addr::UNSPECIFIED, 1));
    assert!(rt; !serves(&rt, Addr::LOOPBACK, 1));
}

/// Five options as they are spelled: an address, an MTU, a prefix, two servers for half an hour, and one of an unknown type.
const FIVE_OPTIONS: [u8; 152] = [
    0x01, 0x01, 0x02, 0x00, 0x00, 0x00, 0x00, 0x01, 0x05, 0x01, 0x00, 0x00, 0x00, 0x00, 0x05, 0xdc,
    0x03, 0x04, 0x40, 0xc0, 0x00, 0x27, 0x8d, 0x00, 0x00, 0x09, 0x3a, 0x80, 0x00, 0x00, 0x00, 0x00,
    0x20, 0x01, 0x0d, 0xb8, 0x00, 0x00, 0x00, 0x00, 0x00, 0x00, 0x00, 0x00, 0x00, 0x00, 0x00, 0x00,
    0x19, 0x05, 0x00, 0x00, 0x00, 0x00, 0x07, 0x08, 0x20, 0x01, 0x0d, 0xb8, 0x00, 0x00, 0x00, 0x00,
    0x00, 0x00, 0x00, 0x00, 0x00, 0x00, 0x00, 0x53, 0x20, 0x01, 0x0d, 0xb8, 0x00, 0x00, 0x00, 0x00,
    0x00, 0x00, 0x00, 0x00, 0x00, 0x00, 0x00, 0x09, 0xc8, 0x08, 0x05, 0x05, 0x05, 0x05, 0x05, 0x05,
    0x05, 0x05, 0x05, 0x05, 0x05, 0x05, 0x05, 0x05, 0x05, 0x05, 0x05, 0x05, 0x05, 0x05, 0x05, 0x05,
    0x05, 0x05, 0x05, 0x05, 0x05, 0x05, 0x05, 0x05, 0x05, 0x05, 0x05, 0x05, 0x05, 0x05, 0x05, 0x05,
    0x05, 0x05, 0x05, 0x05, 0x05, 0x05, 0x05, 0x05, 0x05, 0x05, 0x05, 0x05, 0x05, 0x05, 0x05, 0x05,
    0x05, 0x05, 0x05, 0x05, 0x05, 0x05, 0x05, 0x05,
];

/// Adds the five options.
fn push_five(rt: &(impl Abort + AllocGlobal), options: &mut Vec<Opt<Global>>) {
    let prefix = Prefix::new(DOCUMENTATION, 64).expect(rt, "prefix");
    options
        .push(Opt::Slla(Mac([2, 0, 0, 0, 0, 1])))
        .expect(rt, "memory");
    options.push(Opt::Mtu(1500)).expect(rt, "memory");
    options
        .push(Opt::Prefix(PrefixInfo {
            prefix,
            on_link: true,
            autonomous: true,
            valid_lifetime: 2592000,
            preferred_lifetime: 604800,
        }))
        .expect(rt, "memory");
    let mut servers = Vec::new(rt.alloc());
    servers.push(SERVER).expect(rt, "memory");
    servers.push(NEAR).expect(rt, "memory");
    let lifetime = 1800;
    options
        .push(Opt::Rdnss { lifetime, servers })
        .expect(rt, "memory");
    options
        .push(Opt::Other(200, vec![in rt.alloc(); 5; 62].expect(rt, "memory")))
        .expect(rt, "memory");
}

/// Returns true if the next five options are these.
fn next_are_five(left: &mut Options<'_>) -> bool {
    let slla = matches!(left.next(), Some(OptionRef::Slla(mac)) if mac == Mac([2, 0, 0, 0, 0, 1]));
    let mtu = matches!(left.next(), Some(OptionRef::Mtu(1500)));
    let prefix =
        matches!(left.next(), Some(OptionRef::Prefix(info)) if info.prefix.address() == DOCUMENTATION
        && info.prefix.length() == 64 && info.on_link && info.autonomous
        && info.valid_lifetime == 2592000 && info.preferred_lifetime == 604800);
    let servers = match left.next() {
        Some(OptionRef::Rdnss(1800, mut told)) => {
            told.next() == Some(SERVER) && told.next() == Some(NEAR) && told.next().is_none()
        }
        _ => false,
    };
    let other =
        matches!(left.next(), Some(OptionRef::Other(200, rest)) if rest == [5; 62].as_slice());
    slla && mtu && prefix && servers && other
}

/// The longest message of whole options: 16 bytes of fields, and 431 times 152 bytes of options, 65,528 in all. It has 2,155 options.
#[test]
fn writes_the_longest_message(rt: HostRuntime) {
    let mut options = Vec::new(rt.alloc());
    for _ in 0..431 {
        push_five(&rt, &mut options);
    }
    let body = Body::Ra(BODY);
    let message = Message { body, options };
    assert!(rt; message.is_well_formed());
    let bytes = encode(rt.alloc(), &message, ROUTER, Addr::ALL_NODES).expect(&rt, "memory");
    assert!(rt; bytes.len() == 65528);
    let fields = bytes.get(..16).expect(&rt, "fields");
    let spelled = [134, 0, 0x4e, 0x9a, 64, 0, 7, 8, 0, 0, 0, 0, 0, 0, 0, 0];
    assert!(rt; fields == &spelled[..]);
    assert!(rt; bytes.get(16..168).expect(&rt, "first") == &FIVE_OPTIONS[..]);
    assert!(rt; bytes.get(65376..).expect(&rt, "last") == &FIVE_OPTIONS[..]);
    let read = decode(&bytes).ok().expect(&rt, "message");
    assert!(rt; read.body == body);
    let mut left = read.options;
    for _ in 0..431 {
        assert!(rt; next_are_five(&mut left));
    }
    assert!(rt; left.next().is_none());
}
