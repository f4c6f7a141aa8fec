use nd_addr::{Addr, Mac, Preference, Prefix, Why};
use nd_decode::*;
use std::test::*;

/// A solicitation for fe80::3656:78ff:fe9a:bcde.
const SOLICITATION: [u8; 24] = [
    0x87, 0x00, 0x53, 0xdf, 0x00, 0x00, 0x00, 0x00, 0xfe, 0x80, 0x00, 0x00, 0x00, 0x00, 0x00, 0x00,
    0x36, 0x56, 0x78, 0xff, 0xfe, 0x9a, 0xbc, 0xde,
];

/// An advertisement with a link-layer address and the prefix 2001:db8::/64.
const ADVERTISEMENT: [u8; 56] = [
    0x86, 0x00, 0xf9, 0xce, 0x40, 0x00, 0x07, 0x08, 0x00, 0x00, 0x00, 0x00, 0x00, 0x00, 0x00, 0x00,
    0x01, 0x01, 0x02, 0x00, 0x00, 0x00, 0x00, 0x01, 0x03, 0x04, 0x40, 0xc0, 0x00, 0x27, 0x8d, 0x00,
    0x00, 0x09, 0x3a, 0x80, 0x00, 0x00, 0x00, 0x00, 0x20, 0x01, 0x0d, 0xb8, 0x00, 0x00, 0x00, 0x00,
    0x00, 0x00, 0x00, 0x00, 0x00, 0x00, 0x00, 0x00,
];

/// The same, with an option of length 0 after it.
const ADVERTISEMENT_AND_ZERO: [u8; 64] = [
    0x86, 0x00, 0xf4, 0xc6, 0x40, 0x00, 0x07, 0x08, 0x00, 0x00, 0x00, 0x00, 0x00, 0x00, 0x00, 0x00,
    0x01, 0x01, 0x02, 0x00, 0x00, 0x00, 0x00, 0x01, 0x03, 0x04, 0x40, 0xc0, 0x00, 0x27, 0x8d, 0x00,
    0x00, 0x09, 0x3a, 0x80, 0x00, 0x00, 0x00, 0x00, 0x20, 0x01, 0x0d, 0xb8, 0x00, 0x00, 0x00, 0x00,
    0x00, 0x00, 0x00, 0x00, 0x00, 0x00, 0x00, 0x00, 0x05, 0x00, 0x00, 0x00, 0x00, 0x00, 0x00, 0x00,
];

/// An advertisement that announces a reachable time alone.
const REACHABLE_TIME: [u8; 16] = [
    0x86, 0x00, 0xff, 0xff, 0x00, 0x00, 0x00, 0x00, 0x00, 0x00, 0x7d, 0x2f, 0x00, 0x00, 0x00, 0x00,
];

/// An advertisement with a source's link-layer address of length 2.
const LONG_LINK_LAYER_ADDRESS: [u8; 32] = [
    0x86, 0x00, 0x00, 0x00, 0x00, 0x00, 0x00, 0x00, 0x00, 0x00, 0x00, 0x00, 0x00, 0x00, 0x00, 0x00,
    0x01, 0x02, 0x03, 0x04, 0x05, 0x06, 0x07, 0x08, 0x09, 0x0a, 0x0b, 0x0c, 0x0d, 0x0e, 0x0f, 0x10,
];

/// A Router Solicitation with a link-layer address.
const ROUTER_SOLICITATION: [u8; 16] = [
    0x85, 0x00, 0xa7, 0x8f, 0x00, 0x00, 0x00, 0x00, 0x01, 0x01, 0x34, 0x56, 0x78, 0x9a, 0xbc, 0xde,
];

/// An answer of a router, with its link-layer address.
const NEIGHBOR_ADVERTISEMENT: [u8; 32] = [
    0x88, 0x00, 0x2f, 0x4e, 0xe0, 0x00, 0x00, 0x00, 0xfe, 0x80, 0x00, 0x00, 0x00, 0x00, 0x00, 0x00,
    0x00, 0x00, 0x00, 0xff, 0xfe, 0x00, 0x00, 0x01, 0x02, 0x01, 0x02, 0x00, 0x00, 0x00, 0x00, 0x01,
];

/// A Redirect with the packet that was redirected.
const REDIRECT: [u8; 88] = [
    0x89, 0x00, 0x4e, 0x1f, 0x00, 0x00, 0x00, 0x00, 0xfe, 0x80, 0x00, 0x00, 0x00, 0x00, 0x00, 0x00,
    0x00, 0x00, 0x00, 0x00, 0x00, 0x00, 0x00, 0x02, 0x20, 0x01, 0x0d, 0xb8, 0x00, 0x01, 0x00, 0x00,
    0x00, 0x00, 0x00, 0x00, 0x00, 0x00, 0x00, 0x05, 0x04, 0x06, 0x00, 0x00, 0x00, 0x00, 0x00, 0x00,
    0x60, 0x00, 0x00, 0x00, 0x00, 0x00, 0x11, 0x40, 0x20, 0x01, 0x0d, 0xb8, 0x00, 0x00, 0x00, 0x00,
    0x00, 0x00, 0x00, 0x00, 0x00, 0x00, 0x00, 0x09, 0x20, 0x01, 0x0d, 0xb8, 0x00, 0x01, 0x00, 0x00,
    0x00, 0x00, 0x00, 0x00, 0x00, 0x00, 0x00, 0x05,
];

/// An advertisement with an MTU, a DNS server, and the search name a.example whose first letter is a capital.
const DNS_ADVERTISEMENT: [u8; 72] = [
    0x86, 0x00, 0x62, 0xbe, 0x40, 0xc0, 0x00, 0x00, 0x00, 0x00, 0x00, 0x00, 0x00, 0x00, 0x00, 0x00,
    0x05, 0x01, 0x00, 0x00, 0x00, 0x00, 0x05, 0x78, 0x19, 0x03, 0x00, 0x00, 0x00, 0x00, 0x07, 0x08,
    0x20, 0x01, 0x0d, 0xb8, 0x00, 0x00, 0x00, 0x00, 0x00, 0x00, 0x00, 0x00, 0x00, 0x00, 0x00, 0x53,
    0x1f, 0x03, 0x00, 0x00, 0x00, 0x00, 0x07, 0x08, 0x01, 0x41, 0x07, 0x65, 0x78, 0x61, 0x6d, 0x70,
    0x6c, 0x65, 0x00, 0x00, 0x00, 0x00, 0x00, 0x00,
];

/// The types of RFC 4861, sections 4.1 to 4.5.
#[test]
fn tells_the_five_types(rt: HostRuntime) {
    assert!(rt; MessageType::of(133) == Some(MessageType::RouterSolicitation));
    assert!(rt; MessageType::of(134) == Some(MessageType::RouterAdvertisement));
    assert!(rt; MessageType::of(135) == Some(MessageType::NeighborSolicitation));
    assert!(rt; MessageType::of(136) == Some(MessageType::NeighborAdvertisement));
    assert!(rt; MessageType::of(137) == Some(MessageType::Redirect));
    assert!(rt; MessageType::of(132).is_none());
    assert!(rt; MessageType::of(138).is_none());
}

#[test]
fn reads_solicitation(rt: HostRuntime) -> Result<(), Fail> {
    let message = decode(&SOLICITATION).ok().ok_or("message")?;
    let target = Addr([
        0xfe, 0x80, 0, 0, 0, 0, 0, 0, 0x36, 0x56, 0x78, 0xff, 0xfe, 0x9a, 0xbc, 0xde,
    ]);
    assert!(rt; message.body == Body::Ns(NeighborSolicitation { target }));
    let mut options = message.options;
    assert!(rt; options.next().is_none());
    Ok(())
}

#[test]
fn reads_advertisement(rt: HostRuntime) -> Result<(), Fail> {
    let message = decode(&ADVERTISEMENT).ok().ok_or("message")?;
    let body = RouterAdvertisement {
        hop_limit: 64,
        managed: false,
        other: false,
        preference: Preference::Medium,
        router_lifetime: 1800,
        reachable_time: 0,
        retrans_timer: 0,
    };
    assert!(rt; message.body == Body::Ra(body));
    let address = Addr([0x20, 0x01, 0x0d, 0xb8, 0, 0, 0, 0, 0, 0, 0, 0, 0, 0, 0, 0]);
    let told = PrefixInfo {
        prefix: Prefix::new(address, 64).ok_or("prefix")?,
        on_link: true,
        autonomous: true,
        valid_lifetime: 2592000,
        preferred_lifetime: 604800,
    };
    let mut options = message.options;
    assert!(rt;
        matches!(options.next(), Some(OptionRef::Slla(mac)) if mac == Mac([2, 0, 0, 0, 0, 1]))
    );
    assert!(rt; matches!(options.next(), Some(OptionRef::Prefix(info)) if info == told));
    assert!(rt; options.next().is_none());
    Ok(())
}

#[test]
fn reads_reachable_time(rt: HostRuntime) -> Result<(), Fail> {
    let message = decode(&REACHABLE_TIME).ok().ok_or("message")?;
    let body = RouterAdvertisement {
        hop_limit: 0,
        managed: false,
        other: false,
        preference: Preference::Medium,
        router_lifetime: 0,
        reachable_time: 32047,
        retrans_timer: 0,
    };
    assert!(rt; message.body == Body::Ra(body));
    Ok(())
}

/// The preference is in two bits of the byte of flags (RFC 4191, section 2.1), whatever the router lifetime.
#[test]
fn reads_preferences(rt: HostRuntime) -> Result<(), Fail> {
    for (flags, managed, preference) in [
        (0x00u8, false, Preference::Medium),
        (0x08, false, Preference::High),
        (0x18, false, Preference::Low),
        // The reserved value.
        (0x10, false, Preference::Medium),
        (0x88, true, Preference::High),
        (0xff, true, Preference::Low),
    ] {
        let mut bytes = REACHABLE_TIME;
        bytes[5] = flags;
        let message = decode(&bytes).ok().ok_or("message")?;
        match message.body {
            Body::Ra(ra) => assert!(rt; ra.preference == preference && ra.managed == managed),
            _ => return Err(Fail::new("another message")),
        }
    }
    Ok(())
}

#[test]
fn tells_the_first_reason(rt: HostRuntime) {
    assert!(rt; decode(&ADVERTISEMENT_AND_ZERO).err() == Some(Why::OptionZero));
    assert!(rt; decode(&[134, 1]).err() == Some(Why::Code));
    assert!(rt; decode(&[135]).err() == Some(Why::Length));
    assert!(rt; decode(&ADVERTISEMENT[..15]).err() == Some(Why::Length));
    assert!(rt; decode(&SOLICITATION[..23]).err() == Some(Why::Length));
    // An option that passes the end, and a last byte alone.
    assert!(rt; decode(&ADVERTISEMENT[..48]).err() == Some(Why::OptionOver));
    assert!(rt; decode(&ADVERTISEMENT[..17]).err() == Some(Why::OptionOver));
}

#[test]
fn reads_the_rest_as_other(rt: HostRuntime) -> Result<(), Fail> {
    // A prefix length of 129.
    let mut bytes = ADVERTISEMENT;
    bytes[26] = 129;
    let mut options = decode(&bytes).ok().ok_or("message")?.options;
    assert!(rt; matches!(options.next(), Some(OptionRef::Slla(_))));
    assert!(rt; matches!(options.next(), Some(OptionRef::Other(3, rest)) if rest == &bytes[26..]));
    // A type that no row has.
    let mut bytes = ADVERTISEMENT;
    bytes[16] = 99;
    let mut options = decode(&bytes).ok().ok_or("message")?.options;
    assert!(rt;
        matches!(options.next(), Some(OptionRef::Other(99, rest)) if rest == &bytes[18..24])
    );
    // A link-layer address of length 2.
    let mut options = decode(&LONG_LINK_LAYER_ADDRESS)
        .ok()
        .ok_or("message")?
        .options;
    assert!(rt;
        matches!(options.next(), Some(OptionRef::Other(1, rest)) if rest == &LONG_LINK_LAYER_ADDRESS[18..])
    );
    assert!(rt; options.next().is_none());
    // A target's link-layer address is a row of its own.
    let mut bytes = ADVERTISEMENT;
    bytes[16] = 2;
    let mut options = decode(&bytes).ok().ok_or("message")?.options;
    assert!(rt;
        matches!(options.next(), Some(OptionRef::Tlla(mac)) if mac == Mac([2, 0, 0, 0, 0, 1]))
    );
    Ok(())
}

#[test]
fn ignores_bits_past_the_prefix(rt: HostRuntime) -> Result<(), Fail> {
    let mut bytes = ADVERTISEMENT;
    bytes[55] = 9;
    let mut options = decode(&bytes).ok().ok_or("message")?.options;
    let _first = options.next();
    let address = Addr([0x20, 0x01, 0x0d, 0xb8, 0, 0, 0, 0, 0, 0, 0, 0, 0, 0, 0, 0]);
    let prefix = Prefix::new(address, 64).ok_or("prefix")?;
    assert!(rt; matches!(options.next(), Some(OptionRef::Prefix(info)) if info.prefix == prefix));
    Ok(())
}

#[test]
fn reads_router_solicitation(rt: HostRuntime) -> Result<(), Fail> {
    let message = decode(&ROUTER_SOLICITATION).ok().ok_or("message")?;
    assert!(rt; message.body == Body::Rs);
    let mut options = message.options;
    assert!(rt;
        matches!(options.next(), Some(OptionRef::Slla(mac)) if mac == Mac([0x34, 0x56, 0x78, 0x9a, 0xbc, 0xde]))
    );
    assert!(rt; options.next().is_none());
    assert!(rt; decode(&ROUTER_SOLICITATION[..7]).err() == Some(Why::Length));
    Ok(())
}

#[test]
fn reads_neighbor_advertisement(rt: HostRuntime) -> Result<(), Fail> {
    let message = decode(&NEIGHBOR_ADVERTISEMENT).ok().ok_or("message")?;
    let target = Addr([
        0xfe, 0x80, 0, 0, 0, 0, 0, 0, 0, 0, 0, 0xff, 0xfe, 0, 0, 0x01,
    ]);
    let body = NeighborAdvertisement {
        router: true,
        solicited: true,
        override_flag: true,
        target,
    };
    assert!(rt; message.body == Body::Na(body));
    let mut options = message.options;
    assert!(rt;
        matches!(options.next(), Some(OptionRef::Tlla(mac)) if mac == Mac([2, 0, 0, 0, 0, 1]))
    );
    assert!(rt; decode(&NEIGHBOR_ADVERTISEMENT[..23]).err() == Some(Why::Length));
    Ok(())
}

#[test]
fn reads_redirect(rt: HostRuntime) -> Result<(), Fail> {
    let message = decode(&REDIRECT).ok().ok_or("message")?;
    let body = Redirect {
        target: Addr([0xfe, 0x80, 0, 0, 0, 0, 0, 0, 0, 0, 0, 0, 0, 0, 0, 0x02]),
        destination: Addr([
            0x20, 0x01, 0x0d, 0xb8, 0, 0x01, 0, 0, 0, 0, 0, 0, 0, 0, 0, 0x05,
        ]),
    };
    assert!(rt; message.body == Body::Redirect(body));
    let mut options = message.options;
    assert!(rt;
        matches!(options.next(), Some(OptionRef::Redirected(packet)) if packet == &REDIRECT[48..88])
    );
    assert!(rt; options.next().is_none());
    assert!(rt; decode(&REDIRECT[..39]).err() == Some(Why::Length));
    Ok(())
}

#[test]
fn reads_servers_and_names(rt: HostRuntime) -> Result<(), Fail> {
    let mut options = decode(&DNS_ADVERTISEMENT).ok().ok_or("message")?.options;
    assert!(rt; matches!(options.next(), Some(OptionRef::Mtu(1400))));
    let (lifetime, mut servers) = match options.next() {
        Some(OptionRef::Rdnss(lifetime, servers)) => (lifetime, servers),
        _ => return Err("servers")?,
    };
    assert!(rt; lifetime == 1800);
    assert!(rt; servers.len() == 1);
    let server = Addr([
        0x20, 0x01, 0x0d, 0xb8, 0, 0, 0, 0, 0, 0, 0, 0, 0, 0, 0, 0x53,
    ]);
    assert!(rt; servers.next() == Some(server));
    assert!(rt; servers.next().is_none());
    let (lifetime, mut names) = match options.next() {
        Some(OptionRef::Dnssl(lifetime, names)) => (lifetime, names),
        _ => return Err("names")?,
    };
    assert!(rt; lifetime == 1800);
    assert!(rt; names.len() == 1);
    let name = names.next().ok_or("name")?;
    assert!(rt; name.is(b"\x01a\x07example"));
    assert!(rt; names.next().is_none());
    assert!(rt; options.next().is_none());
    Ok(())
}

/// Returns true if the last option of an advertisement reads as Other of this type.
fn ends_in_other(bytes: &[u8], kind: u8) -> bool {
    if bytes.is_empty() || bytes[0] != ICMPV6_ROUTER_ADVERTISEMENT {
        return false;
    }
    let mut found = false;
    if let Ok(message) = decode(bytes) {
        for option in message.options {
            found = matches!(option, OptionRef::Other(other, _) if other == kind);
        }
    }
    found
}

#[test]
fn servers_of_an_even_length_are_no_servers(rt: HostRuntime) {
    // Two units, in which no address has room, and the next one, in which half of a second one has.
    let mut bytes = [0; 48];
    bytes[0] = 134;
    bytes[16..18].copy_from_slice(&[25, 4]);
    bytes[24..40].copy_from_slice(&DNS_ADVERTISEMENT[32..48]);
    assert!(rt; ends_in_other(&bytes, 25));
    bytes[17] = 2;
    assert!(rt; ends_in_other(&bytes[..32], 25));
    bytes[17] = 3;
    assert!(rt; !ends_in_other(&bytes[..40], 25));
    // One unit, with no address.
    bytes[17] = 1;
    assert!(rt; ends_in_other(&bytes[..24], 25));
}

#[test]
fn addresses_that_no_server_has_are_no_servers(rt: HostRuntime) {
    let server = 32;
    let mut bytes = DNS_ADVERTISEMENT;
    assert!(rt; !ends_in_other(&bytes[..48], 25));
    bytes[server] = 0xff;
    assert!(rt; ends_in_other(&bytes[..48], 25));
    bytes[server..48].copy_from_slice(&[0; 16]);
    assert!(rt; ends_in_other(&bytes[..48], 25));
    bytes[47] = 1;
    assert!(rt; ends_in_other(&bytes[..48], 25));
    bytes[47] = 2;
    assert!(rt; !ends_in_other(&bytes[..48], 25));
}

#[test]
fn a_name_that_runs_out_of_its_option_is_no_name(rt: HostRuntime) {
    let mut bytes = DNS_ADVERTISEMENT;
    assert!(rt; !ends_in_other(&bytes, 31));
    // The second label says 63 bytes where 13 are left.
    bytes[58] = 63;
    assert!(rt; ends_in_other(&bytes, 31));
}

#[test]
fn a_name_past_255_bytes_is_no_name(rt: HostRuntime) {
    // 272 bytes of an option: type, length, lifetime, and labels of 63 letters.
    let mut bytes = [b'a'; 288];
    bytes[..16].copy_from_slice(&[134, 0, 0, 0, 0, 0, 0, 0, 0, 0, 0, 0, 0, 0, 0, 0]);
    bytes[16..24].copy_from_slice(&[31, 34, 0, 0, 0, 0, 0, 0]);
    bytes[24] = 63;
    bytes[88] = 63;
    bytes[152] = 63;
    // The last label has 61 letters: 255 bytes with the zero byte.
    bytes[216] = 61;
    bytes[278..288].copy_from_slice(&[0; 10]);
    assert!(rt; !ends_in_other(&bytes, 31));
    // It has 62: 256 bytes.
    bytes[216] = 62;
    bytes[278] = b'a';
    assert!(rt; ends_in_other(&bytes, 31));
}

#[test]
fn a_label_with_bytes_that_a_shell_reads_is_no_name(rt: HostRuntime) {
    for byte in [b'$', b'`', b';', b' ', b'/', b'.', 0xe4] {
        let mut bytes = DNS_ADVERTISEMENT;
        bytes[60] = byte;
        assert!(rt; ends_in_other(&bytes, 31));
    }
}

#[test]
fn other_bytes_in_the_padding_spoil_the_names(rt: HostRuntime) {
    let mut bytes = DNS_ADVERTISEMENT;
    bytes[71] = 1;
    assert!(rt; ends_in_other(&bytes, 31));
}

#[test]
fn an_mtu_of_another_length_is_no_mtu(rt: HostRuntime) {
    let mut bytes = [0; 32];
    bytes[0] = 134;
    bytes[16..18].copy_from_slice(&[5, 2]);
    assert!(rt; ends_in_other(&bytes, 5));
}
