use nd_addr::*;
use std::test::*;

/// A Neighbor Solicitation from the unspecified address, for fe80::3656:78ff:fe9a:bcde.
const SOLICITATION_FOR_LINK_LOCAL: &[u8] =
    b"\x33\x33\xff\x9a\xbc\xde\x34\x56\x78\x9a\xbc\xde\x86\xdd\x60\x00\x00\x00\x00\x18\
    \x3a\xff\x00\x00\x00\x00\x00\x00\x00\x00\x00\x00\x00\x00\x00\x00\x00\x00\xff\x02\
    \x00\x00\x00\x00\x00\x00\x00\x00\x00\x01\xff\x9a\xbc\xde\x87\x00\x53\xdf\x00\x00\
    \x00\x00\xfe\x80\x00\x00\x00\x00\x00\x00\x36\x56\x78\xff\xfe\x9a\xbc\xde";

/// A Router Advertisement whose checksum field is ffff where 0000 would be written.
const ADVERTISEMENT_WITH_FULL_SUM: &[u8] =
    b"\x33\x33\x00\x00\x00\x01\x02\x00\x00\x00\x00\x01\x86\xdd\x60\x00\x00\x00\x00\x10\
    \x3a\xff\xfe\x80\x00\x00\x00\x00\x00\x00\x00\x00\x00\xff\xfe\x00\x00\x01\xff\x02\
    \x00\x00\x00\x00\x00\x00\x00\x00\x00\x00\x00\x00\x00\x01\x86\x00\xff\xff\x00\x00\
    \x00\x00\x00\x00\x7d\x2f\x00\x00\x00\x00";

fn text_of(rt: &HostRuntime, groups: [u16; 8]) -> Result<String, Fail> {
    let mut address = Addr([0; 16]);
    for (i, group) in groups.iter().enumerate() {
        let [high, low] = group.to_be_bytes();
        address.0[2 * i] = high;
        address.0[2 * i + 1] = low;
    }
    let mut text = String::new(rt.alloc());
    address.write_text(&mut text)?;
    Ok(text)
}

/// fe80::/10 and then 54 zero bits (RFC 4291, section 2.5.6).
#[test]
fn the_subnet_of_link_local_addresses_has_64_bits(rt: HostRuntime) {
    let subnet = Prefix::link_local_subnet();
    assert!(rt; subnet.length() == 64);
    let mut inside = Addr::LINK_LOCAL;
    inside.0[8] = 0xff;
    assert!(rt; subnet.holds(inside));
    let mut outside = Addr::LINK_LOCAL;
    outside.0[7] = 1;
    assert!(rt; outside.is_link_local());
    assert!(rt; !subnet.holds(outside));
}

#[test]
fn the_longest_run_of_zeros_is_shortened(rt: HostRuntime) -> Result<(), Fail> {
    for (groups, text) in [
        ([0, 0, 0, 0, 0, 0, 0, 0], "::"),
        ([1, 0, 0, 2, 0, 0, 0, 3], "1:0:0:2::3"),
        ([1, 0, 2, 3, 4, 5, 6, 7], "1:0:2:3:4:5:6:7"),
        ([1, 2, 3, 4, 5, 6, 7, 0], "1:2:3:4:5:6:7:0"),
        (
            [0xfe80, 0, 0, 0, 0x3656, 0x78ff, 0xfe9a, 0xbcde],
            "fe80::3656:78ff:fe9a:bcde",
        ),
        // The first of two.
        ([1, 0, 0, 2, 3, 0, 0, 4], "1::2:3:0:0:4"),
    ] {
        assert_eq!(rt; text_of(&rt, groups)?.as_str(), text);
    }
    Ok(())
}

#[test]
fn ethernet_addresses_and_prefixes_have_texts(rt: HostRuntime) -> Result<(), Fail> {
    let mut text = String::new(rt.alloc());
    Mac([0x34, 0x56, 0x78, 0x9a, 0xbc, 0xde]).write_text(&mut text)?;
    assert!(rt; text.as_str() == "34:56:78:9a:bc:de");
    let mut address = Addr([0xff; 16]);
    address.0[..4].copy_from_slice(&[0x20, 0x01, 0x0d, 0xb8]);
    let prefix = Prefix::new(address, 33).ok_or("a prefix")?;
    text.clear();
    prefix.write_text(&mut text)?;
    assert!(rt; text.as_str() == "2001:db8:8000::/33");
    assert!(rt; prefix.length() == 33);
    assert!(rt; Prefix::new(address, 129) == None);
    Ok(())
}

#[test]
fn a_frame_is_read(rt: HostRuntime) -> Result<(), Fail> {
    let frame = Frame::read(SOLICITATION_FOR_LINK_LOCAL).map_err(Why::name)?;
    assert!(rt; frame.destination == Mac([0x33, 0x33, 0xff, 0x9a, 0xbc, 0xde]));
    assert!(rt; frame.source == Mac([0x34, 0x56, 0x78, 0x9a, 0xbc, 0xde]));
    let packet = Ip6::read(frame.rest).map_err(Why::name)?;
    assert!(rt; packet.header.source == Addr([0; 16]));
    assert!(rt; packet.header.next_header == 58);
    assert!(rt; packet.header.hop_limit == 255);
    assert!(rt; packet.header.traffic_class == 0);
    assert!(rt; packet.header.flow_label == 0);
    assert!(rt; packet.payload.len() == 24);
    assert!(rt;
        sum_is_good(
            packet.header.source,
            packet.header.destination,
            packet.payload
        )
    );
    let sum = sum_for(
        packet.header.source,
        packet.header.destination,
        packet.payload,
    );
    assert!(rt; sum == 0x53df);
    Ok(())
}

#[test]
fn what_was_read_is_written_again(rt: HostRuntime) -> Result<(), Fail> {
    let frame = Frame::read(SOLICITATION_FOR_LINK_LOCAL).map_err(Why::name)?;
    let packet = Ip6::read(frame.rest).map_err(Why::name)?;
    let written = write_frame(
        rt.alloc(),
        frame.destination,
        frame.source,
        &packet.header,
        packet.payload,
    )?;
    assert!(rt; written.as_slice() == SOLICITATION_FOR_LINK_LOCAL);
    Ok(())
}

#[test]
fn both_spellings_of_a_zero_checksum_are_good(rt: HostRuntime) -> Result<(), Fail> {
    let frame = Frame::read(ADVERTISEMENT_WITH_FULL_SUM).map_err(Why::name)?;
    let packet = Ip6::read(frame.rest).map_err(Why::name)?;
    assert!(rt;
        sum_is_good(
            packet.header.source,
            packet.header.destination,
            packet.payload
        )
    );
    let sum = sum_for(
        packet.header.source,
        packet.header.destination,
        packet.payload,
    );
    assert!(rt; sum == 0);
    Ok(())
}

#[test]
fn short_and_foreign_frames_have_their_reasons(rt: HostRuntime) -> Result<(), Fail> {
    let frame = SOLICITATION_FOR_LINK_LOCAL;
    assert!(rt; frame.len() == 78);
    assert!(rt; Frame::read(&frame[..13]).err() == Some(Why::FrameShort));
    assert!(rt; Frame::read(&frame[1..]).err() == Some(Why::NotIpv6));
    assert!(rt; Ip6::read(&frame[14..53]).err() == Some(Why::HeaderShort));
    assert!(rt; Ip6::read(&frame[15..]).err() == Some(Why::Version));
    assert!(rt; Ip6::read(&frame[14..77]).err() == Some(Why::PayloadShort));
    Ok(())
}

/// The groups of the address that a text spells, or none.
fn groups_of_text(text: &str) -> Option<[u16; 8]> {
    let Ok(address) = Addr::parse(text.as_bytes()) else {
        return None;
    };
    let [a, b, c, d, e, f, g, h, i, j, k, l, m, n, o, p] = address.0;
    Some([
        u16::from_be_bytes([a, b]),
        u16::from_be_bytes([c, d]),
        u16::from_be_bytes([e, f]),
        u16::from_be_bytes([g, h]),
        u16::from_be_bytes([i, j]),
        u16::from_be_bytes([k, l]),
        u16::from_be_bytes([m, n]),
        u16::from_be_bytes([o, p]),
    ])
}

/// What is printed of the address that a text spells.
fn printed(rt: &HostRuntime, text: &str) -> Result<String, Fail> {
    let address = Addr::parse(text.as_bytes()).map_err(|_| "malformed")?;
    let mut out = String::new(rt.alloc());
    address.write_text(&mut out)?;
    Ok(out)
}

#[test]
fn texts_of_rfc_4291_section_2_2_are_read(rt: HostRuntime) {
    let full = [
        0xabcd, 0xef01, 0x2345, 0x6789, 0xabcd, 0xef01, 0x2345, 0x6789,
    ];
    let unicast = [0x2001, 0xdb8, 0, 0, 8, 0x800, 0x200c, 0x417a];
    let multicast = [0xff01, 0, 0, 0, 0, 0, 0, 0x101];
    let loopback = [0, 0, 0, 0, 0, 0, 0, 1];
    for (text, groups) in [
        ("ABCD:EF01:2345:6789:ABCD:EF01:2345:6789", full),
        ("2001:DB8:0:0:8:800:200C:417A", unicast),
        ("2001:DB8::8:800:200C:417A", unicast),
        ("FF01:0:0:0:0:0:0:101", multicast),
        ("FF01::101", multicast),
        ("0:0:0:0:0:0:0:1", loopback),
        ("::1", loopback),
        ("::", [0; 8]),
    ] {
        assert_eq!(rt; groups_of_text(text), Some(groups));
    }
}

#[test]
fn spellings_of_rfc_5952_section_2_are_one_address(rt: HostRuntime) -> Result<(), Fail> {
    for text in [
        "2001:db8:0:0:1:0:0:1",
        "2001:0db8:0:0:1:0:0:1",
        "2001:db8::1:0:0:1",
        "2001:db8::0:1:0:0:1",
        "2001:0db8::1:0:0:1",
        "2001:db8:0:0:1::1",
        "2001:db8:0000:0:1::1",
        "2001:DB8:0:0:1::1",
    ] {
        assert_eq!(rt; printed(&rt, text)?.as_str(), "2001:db8::1:0:0:1");
    }
    Ok(())
}

#[test]
fn rules_of_rfc_5952_section_4_are_kept(rt: HostRuntime) -> Result<(), Fail> {
    for (text, shortest) in [
        ("2001:0db8::0001", "2001:db8::1"),
        ("2001:db8:0:0:0:0:2:1", "2001:db8::2:1"),
        ("2001:db8:0:1:1:1:1:1", "2001:db8:0:1:1:1:1:1"),
        ("2001:0:0:1:0:0:0:1", "2001:0:0:1::1"),
        ("2001:db8:0:0:1:0:0:1", "2001:db8::1:0:0:1"),
        ("2001:DB8::AAAA", "2001:db8::aaaa"),
    ] {
        assert_eq!(rt; printed(&rt, text)?.as_str(), shortest);
    }
    Ok(())
}

#[test]
fn malformed_texts_spell_no_address(rt: HostRuntime) -> Result<(), Fail> {
    for text in [
        "",
        "1::2::3",
        "1:2:3:4:5:6:7:8::",
        "12345::",
        ":",
        ":::",
        "1:2:3:4:5:6:7",
        "1:2:3:4:5:6:7:8:9",
        "1:2:3:4:5:6:7:",
        ":1:2:3:4:5:6:7",
        "1:2:3:4::5:6:7:8",
        "g::",
        "::1 ",
        "::1.2.3.4",
        "fe80::1%eth0",
    ] {
        assert_eq!(rt;
            Addr::parse(text.as_bytes()),
            Err(TextFault::Malformed),
            "{text}"
        );
    }
    assert!(rt; groups_of_text("1:2:3:4:5:6:7::") == Some([1, 2, 3, 4, 5, 6, 7, 0]));
    Ok(())
}

#[test]
fn interfaces_have_their_addresses(rt: HostRuntime) -> Result<(), Fail> {
    let link_local = Prefix::parse(b"fe80::/64").map_err(|_| "a prefix")?;
    assert!(rt; link_local.length() == 64);
    for (mac, address, node) in [
        (
            "34:56:78:9A:bc:de",
            "fe80::3656:78ff:fe9a:bcde",
            "ff02::1:ff9a:bcde",
        ),
        ("02:00:00:00:00:01", "fe80::ff:fe00:1", "ff02::1:ff00:1"),
    ] {
        let mac = Mac::parse(mac.as_bytes()).map_err(|_| "an Ethernet address")?;
        let prefix = Prefix::parse(b"fe80::/64").map_err(|_| "a prefix")?;
        let made = interface_address(prefix, mac);
        assert_eq!(rt; Some(made), Addr::parse(address.as_bytes()).ok());
        assert_eq!(rt;
            Some(made.solicited_node()),
            Addr::parse(node.as_bytes()).ok()
        );
        assert!(rt; made.is_link_local());
        assert!(rt; made.solicited_node().is_multicast());
    }
    Ok(())
}

/// The address of an interface, if the prefix has 64 bits.
fn interface_address(prefix: Prefix, mac: Mac) -> Addr {
    if prefix.length() == 64 {
        Addr::from_mac(&prefix, mac)
    } else {
        Addr::UNSPECIFIED
    }
}

#[test]
fn kinds_of_address_are_told(rt: HostRuntime) -> Result<(), Fail> {
    let at = |text: &str| Addr::parse(text.as_bytes()).unwrap_or(Addr([7; 16]));
    assert!(rt; at("::").is_unspecified());
    assert!(rt; at("::1").is_loopback());
    assert!(rt; !at("::1").is_unspecified());
    assert!(rt; at("ff02::1") == Addr::ALL_NODES);
    assert!(rt; at("ff02::2") == Addr::ALL_ROUTERS);
    assert!(rt; Addr::ALL_NODES.is_multicast());
    assert!(rt; !at("fe80::1").is_multicast());
    assert!(rt; at("febf::1").is_link_local());
    assert!(rt; !at("fec0::1").is_link_local());
    assert_eq!(rt;
        Mac::multicast(at("ff02::1:ff9a:bcde")),
        Mac([0x33, 0x33, 0xff, 0x9a, 0xbc, 0xde])
    );
    Ok(())
}

#[test]
fn prefixes_are_read_and_hold_addresses(rt: HostRuntime) -> Result<(), Fail> {
    let prefix = Prefix::parse(b"2001:db8:ffff::/33").map_err(|_| "a prefix")?;
    let mut text = String::new(rt.alloc());
    prefix.write_text(&mut text)?;
    assert!(rt; text.as_str() == "2001:db8:8000::/33");
    let at = |text: &str| Addr::parse(text.as_bytes()).unwrap_or(Addr::UNSPECIFIED);
    assert!(rt; prefix.holds(at("2001:db8:8000::1")));
    assert!(rt; prefix.holds(at("2001:db8:ffff::1")));
    assert!(rt; !prefix.holds(at("2001:db8:7fff::1")));
    for text in [
        "2001:db8::",
        "2001:db8::/",
        "2001:db8::/129",
        "2001:db8::/064",
        "/64",
        "::/+1",
        "::/1/1",
    ] {
        assert_eq!(rt;
            Prefix::parse(text.as_bytes()),
            Err(TextFault::Malformed),
            "{text}"
        );
    }
    for text in [
        "",
        "34:56:78:9a:bc",
        "34:56:78:9a:bc:dg",
        "34-56-78-9a-bc-de",
        "34:56:78:9a:bc:de:",
    ] {
        assert_eq!(rt;
            Mac::parse(text.as_bytes()),
            Err(TextFault::Malformed),
            "{text}"
        );
    }
    Ok(())
}
