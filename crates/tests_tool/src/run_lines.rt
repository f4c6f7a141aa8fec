use nd_addr::Addr;
use nd_node::{Clearable, Event, Request, Table};
use nd_random::Source;
use nd_slaac::OwnAddress;
use nd_text::write_hex;
use ndpctl_run::*;
use rand_core::Rng;
use std::alloc::{AllocError, Global};
use std::process::Abort;
use std::test::*;

/// What a line says.
#[derive(Clone, Debug, PartialEq, Eq, Drop)]
enum Said {
    Settles,
    Receives(String),
    Sends(Addr, Addr, u8, String),
    /// The hop limit of a whole packet, and the digits of its payload.
    Carries(u8, String),
    Confirms(Addr),
    Forgets(Addr),
    Clears(Clearable),
    Shows(Table),
    CommandsRouter,
    Stops,
    Sets(OwnAddress),
    Withdraws(Addr),
    Resolves(Addr),
}

/// The moment of a line and what it says, a frame by its bytes in lower case digits.
fn reading(alloc: Global, line: &[u8]) -> Result<Option<(u64, Said)>, AllocError> {
    let Some(read) = read_line(&alloc, line)? else {
        return Ok(None);
    };
    Ok(Some((read.at, event_said(alloc, read.event)?)))
}

fn event_said(alloc: Global, request: Request<Global>) -> Result<Said, AllocError> {
    let event = match request {
        Request::Shows(table) => return Ok(Said::Shows(table)),
        Request::Event(event) => event,
    };
    match event {
        Event::Passes => Ok(Said::Settles),
        Event::Receives(frame) => {
            let mut digits = String::new(alloc);
            write_hex(&mut digits, &frame)?;
            Ok(Said::Receives(digits))
        }
        Event::Sends(packet) => {
            let mut digits = String::new(alloc);
            write_hex(&mut digits, &packet.payload)?;
            Ok(Said::Sends(
                packet.source,
                packet.destination,
                packet.next_header,
                digits,
            ))
        }
        Event::Carries(packet) => {
            let mut digits = String::new(alloc);
            write_hex(&mut digits, &packet.payload)?;
            Ok(Said::Carries(packet.header.hop_limit, digits))
        }
        Event::Confirms(neighbour) => Ok(Said::Confirms(neighbour)),
        Event::Forgets(neighbour) => Ok(Said::Forgets(neighbour)),
        Event::Clears(table) => Ok(Said::Clears(table)),
        Event::Advertises(_) | Event::Offers(_) | Event::PutsRoute(_) => Ok(Said::CommandsRouter),
        Event::Stops => Ok(Said::Stops),
        Event::Sets(own) => Ok(Said::Sets(own)),
        Event::Withdraws(address) => Ok(Said::Withdraws(address)),
        Event::Resolves(destination) => Ok(Said::Resolves(destination)),
    }
}

fn at(moment: u64) -> Option<(u64, Said)> {
    Some((moment, Said::Settles))
}

/// The frame of a line that says that one is received at 10 ms, in lower case digits.
fn received(rt: &impl Abort, alloc: Global, line: &[u8], digits: &str) -> Result<(), Fail> {
    match reading(alloc, line)? {
        Some((10, Said::Receives(frame))) => assert!(rt; frame.as_str() == digits),
        _ => return Err(Fail::new("no frame at 10 ms")),
    }
    Ok(())
}

/// None of the lines says anything.
fn malformed(rt: &impl Abort, alloc: Global, lines: &[&str]) -> Result<(), Fail> {
    for line in lines {
        assert_eq!(rt; reading(alloc, line.as_bytes())?, None);
    }
    Ok(())
}

#[test]
fn lines_of_settling_are_read(rt: HostRuntime) -> Result<(), Fail> {
    for (line, moment) in [
        ("0 at", 0),
        ("10 at", 10),
        ("2200 at", 2200),
        ("1801200 at", 1801200),
    ] {
        assert_eq!(rt; reading(rt.alloc(), line.as_bytes())?, at(moment));
    }
    Ok(())
}

#[test]
fn lines_of_each_table_are_read(rt: HostRuntime) -> Result<(), Fail> {
    for (line, moment, table) in [
        ("86401199 show neighbours", 86401199, Table::Neighbours),
        ("2200 show routers", 2200, Table::Routers),
        ("1200 show prefixes", 1200, Table::Prefixes),
        ("999 show addresses", 999, Table::Addresses),
        ("1200 show dns", 1200, Table::Dns),
        ("2300 show redirects", 2300, Table::Redirects),
        ("10 show params", 10, Table::Params),
        ("10 show advertise", 10, Table::Advertise),
        ("10 show routes", 10, Table::Routes),
    ] {
        assert_eq!(rt;
            reading(rt.alloc(), line.as_bytes())?,
            Some((moment, Said::Shows(table)))
        );
    }
    Ok(())
}

#[test]
fn lines_of_a_neighbour_are_read(rt: HostRuntime) -> Result<(), Fail> {
    let neighbour = Addr::from_bits(0xfe80_0000_0000_0000_0000_0000_0000_0001);
    assert_eq!(rt;
        reading(rt.alloc(), b"10 confirm fe80::1")?,
        Some((10, Said::Confirms(neighbour)))
    );
    assert_eq!(rt;
        reading(rt.alloc(), b"10 forget FE80:0:0::1")?,
        Some((10, Said::Forgets(neighbour)))
    );
    malformed(
        &rt,
        rt.alloc(),
        &[
            "10 confirm",
            "10 confirm ",
            "10 confirm fe80::1 ",
            "10 confirm fe80",
            "10 forget fe80::1/64",
            "10 forget fe80::1 fe80::2",
        ],
    )
}

/// The lifetimes of a line that gives a node 2001:db8::5 at 10 ms.
fn given(
    rt: &impl Abort,
    alloc: Global,
    line: &str,
    valid: u32,
    preferred: u32,
) -> Result<(), Fail> {
    let address = Addr::from_bits(0x2001_0db8_0000_0000_0000_0000_0000_0005);
    let wanted = OwnAddress::new(address, valid, preferred).map(|own| (10, Said::Sets(own)));
    assert!(rt; wanted.is_some());
    assert_eq!(rt; reading(alloc, line.as_bytes())?, wanted);
    Ok(())
}

#[test]
fn lines_of_an_address_by_hand_are_read(rt: HostRuntime) -> Result<(), Fail> {
    for (line, valid, preferred) in [
        ("10 address 2001:db8::5 - -", u32::MAX, u32::MAX),
        ("10 address 2001:DB8:0::5 - 0", u32::MAX, 0),
        ("10 address 2001:db8::5 1 1", 1, 1),
        ("10 address 2001:db8::5 60 30", 60, 30),
        (
            "10 address 2001:db8::5 4294967295 4294967294",
            u32::MAX,
            u32::MAX - 1,
        ),
    ] {
        given(&rt, rt.alloc(), line, valid, preferred)?;
    }
    Ok(())
}

/// No interface has a multicast address, `::` or `::1` (RFC 4291, sections 2.5.2, 2.5.3 and 2.7). The valid lifetime is at least 1 and the
/// preferred one (RFC 4862, section 5.5.3 c).
#[test]
fn addresses_that_no_interface_may_have_are_malformed(rt: HostRuntime) -> Result<(), Fail> {
    malformed(
        &rt,
        rt.alloc(),
        &[
            "10 address :: - -",
            "10 address ::1 - -",
            "10 address ff02::5 - -",
            "10 address ff00:: - -",
            "10 address 2001:db8::5 0 0",
            "10 address 2001:db8::5 5 6",
            "10 address 2001:db8::5 5 -",
            "10 address 2001:db8::5 4294967294 -",
        ],
    )
}

#[test]
fn other_words_are_no_address_by_hand(rt: HostRuntime) -> Result<(), Fail> {
    malformed(
        &rt,
        rt.alloc(),
        &[
            "10 address",
            "10 address ",
            "10 address 2001:db8::5",
            "10 address 2001:db8::5 ",
            "10 address 2001:db8::5 -",
            "10 address 2001:db8::5 - ",
            "10 address 2001:db8::5 - - ",
            "10 address 2001:db8::5 - - -",
            "10 address 2001:db8::5  - -",
            "10 address 2001:db8::5/64 - -",
            "10 address 2001:db8::5 060 30",
            "10 address 2001:db8::5 +60 30",
            "10 address 2001:db8::5 60 -1",
            "10 address 2001:db8::5 4294967296 1",
            "10 address 2001:db8::5 4294967295 4294967296",
            "10 address 60 30 2001:db8::5",
            "10 Address 2001:db8::5 - -",
            "10 addresses 2001:db8::5 - -",
        ],
    )
}

#[test]
fn lines_of_withdrawing_are_read(rt: HostRuntime) -> Result<(), Fail> {
    let address = Addr::from_bits(0x2001_0db8_0000_0000_0000_0000_0000_0005);
    assert_eq!(rt;
        reading(rt.alloc(), b"10 withdraw 2001:DB8:0::5")?,
        Some((10, Said::Withdraws(address)))
    );
    malformed(
        &rt,
        rt.alloc(),
        &[
            "10 withdraw",
            "10 withdraw ",
            "10 withdraw 2001:db8::5 ",
            "10 withdraw 2001:db8::5 -",
            "10 withdraw 2001:db8::5/128",
            "10 withdraws 2001:db8::5",
        ],
    )
}

#[test]
fn lines_of_resolving_are_read(rt: HostRuntime) -> Result<(), Fail> {
    let destination = Addr::from_bits(0xff02_0000_0000_0000_0000_0000_0000_0001);
    assert_eq!(rt;
        reading(rt.alloc(), b"10 resolve ff02::1")?,
        Some((10, Said::Resolves(destination)))
    );
    malformed(
        &rt,
        rt.alloc(),
        &[
            "10 resolve",
            "10 resolve ",
            "10 resolve ff02::1 ",
            "10 resolve ff02::1 -",
            "10 resolve -",
            "10 resolves ff02::1",
        ],
    )
}

#[test]
fn lines_of_whole_packets_are_read(rt: HostRuntime) -> Result<(), Fail> {
    let mut digits = String::new(rt.alloc());
    digits.push_str("aa")?;
    let line =
        b"10 carry 6ab1234500011107FE80000000000000365678fffe9abcdefe80000000000000000000fffe000001aA";
    assert!(rt; reading(rt.alloc(), line)? == Some((10, Said::Carries(7, digits))));
    malformed(
        &rt,
        rt.alloc(),
        &[
            "10 carry",
            "10 carry -",
            "10 carry 6ab1234500001107fe80000000000000365678fffe9abcdefe80000000000000000000fffe0000",
            "10 carry 4ab1234500011107fe80000000000000365678fffe9abcdefe80000000000000000000fffe000001aa",
            "10 carry 6ab1234500011107fe80000000000000365678fffe9abcdefe80000000000000000000fffe000001",
            "10 carry 6ab1234500011107fe80000000000000365678fffe9abcdefe80000000000000000000fffe000001aabb",
            "10 carry 6ab1234500011107fe80000000000000365678fffe9abcdefe80000000000000000000fffe000001a",
            "10 carries 6ab1234500001107fe80000000000000365678fffe9abcdefe80000000000000000000fffe000001",
        ],
    )
}

#[test]
fn lines_of_ceasing_are_read(rt: HostRuntime) -> Result<(), Fail> {
    assert!(rt; reading(rt.alloc(), b"10 stop")? == Some((10, Said::Stops)));
    malformed(&rt, rt.alloc(), &["10 stop ", "10 stop now", "stop"])
}

#[test]
fn lines_of_tables_to_clear_are_read(rt: HostRuntime) -> Result<(), Fail> {
    for (line, table) in [
        ("10 clear neighbours", Clearable::Neighbours),
        ("10 clear routers", Clearable::Routers),
        ("10 clear prefixes", Clearable::Prefixes),
        ("10 clear redirects", Clearable::Redirects),
        ("10 clear dns", Clearable::Dns),
    ] {
        assert_eq!(rt;
            reading(rt.alloc(), line.as_bytes())?,
            Some((10, Said::Clears(table)))
        );
    }
    malformed(
        &rt,
        rt.alloc(),
        &[
            "10 clear",
            "10 clear addresses",
            "10 clear params",
            "10 clear routers now",
        ],
    )
}

#[test]
fn the_moment_is_below_2_to_the_62(rt: HostRuntime) -> Result<(), Fail> {
    assert!(rt; reading(rt.alloc(), b"4611686018427387903 at")? == at(4611686018427387903));
    assert!(rt; reading(rt.alloc(), b"4611686018427387904 at")? == None);
    assert!(rt; reading(rt.alloc(), b"18446744073709551616 at")? == None);
    Ok(())
}

#[test]
fn words_are_parted_by_one_space(rt: HostRuntime) -> Result<(), Fail> {
    malformed(
        &rt,
        rt.alloc(),
        &[
            "10  at",
            " 10 at",
            "10 at ",
            "10 show  params",
            "10 show params ",
            "10\tat",
            "10 at\r",
            "10 show params\r",
        ],
    )
}

#[test]
fn other_lines_are_malformed(rt: HostRuntime) -> Result<(), Fail> {
    malformed(
        &rt,
        rt.alloc(),
        &[
            "",
            " ",
            "10",
            "10 ",
            "at",
            "show params",
            "10 show",
            "10 show ",
            "10 show neighbour",
            "10 show Params",
            "10 show params dns",
            "10 At",
            "10 at now",
            "10 settle",
            "-",
        ],
    )
}

#[test]
fn moments_have_no_sign_and_no_leading_zero(rt: HostRuntime) -> Result<(), Fail> {
    assert!(rt; reading(rt.alloc(), b"\xff at")? == None);
    malformed(
        &rt,
        rt.alloc(),
        &["010 at", "00 at", "+10 at", "-10 at", "1a at"],
    )
}

/// A Router Advertisement of a router without a lifetime.
const ADVERTISED: &str =
    "33330000000102000000000186dd6000000000103afffe80000000000000000000fffe000001ff0200000000000000000000000000018600ffff0000000000007d2f00000000";

#[test]
fn frames_are_read(rt: HostRuntime) -> Result<(), Fail> {
    let line = format!(in rt.alloc(); "10 rx {ADVERTISED}")?;
    received(&rt, rt.alloc(), line.as_bytes(), ADVERTISED)?;
    received(&rt, rt.alloc(), b"10 rx -", "")?;
    received(&rt, rt.alloc(), b"10 rx 00", "00")?;
    received(
        &rt,
        rt.alloc(),
        b"10 rx 0123456789ABCDEF",
        "0123456789abcdef",
    )?;
    received(&rt, rt.alloc(), b"10 rx aBcDeF", "abcdef")
}

#[test]
fn other_words_are_no_frames(rt: HostRuntime) -> Result<(), Fail> {
    malformed(
        &rt,
        rt.alloc(),
        &[
            "10 rx",
            "10 rx ",
            "10 rx 0",
            "10 rx 012",
            "10 rx 0g",
            "10 rx --",
            "10 rx -00",
            "10 rx 00-",
            "10 rx 0x00",
            "10 rx  00",
            "10 rx 00 ",
            "10 rx 00 00",
            "10 rx 00\r",
            "10 RX 00",
            "rx 00",
        ],
    )
}

/// The packet of a line that says that one is to be sent at 10 ms from fe80::1 to 2001:db8::2: its next header, and its payload in lower
/// case digits.
fn sent(
    rt: &impl Abort,
    alloc: Global,
    line: &[u8],
    next_header: u8,
    digits: &str,
) -> Result<(), Fail> {
    match reading(alloc, line)? {
        Some((10, Said::Sends(source, destination, of, payload))) => {
            assert!(rt; source.to_bits() == 0xfe80_0000_0000_0000_0000_0000_0000_0001);
            assert!(rt; destination.to_bits() == 0x2001_0db8_0000_0000_0000_0000_0000_0002);
            assert!(rt; of == next_header);
            assert!(rt; payload.as_str() == digits);
        }
        _ => return Err(Fail::new("no packet at 10 ms")),
    }
    Ok(())
}

#[test]
fn packets_are_read(rt: HostRuntime) -> Result<(), Fail> {
    sent(&rt, rt.alloc(), b"10 send fe80::1 2001:db8::2 17 -", 17, "")?;
    sent(
        &rt,
        rt.alloc(),
        b"10 send FE80:0::1 2001:DB8:0:0:0:0:0:2 0 0aBC",
        0,
        "0abc",
    )?;
    sent(
        &rt,
        rt.alloc(),
        b"10 send fe80::1 2001:db8::2 255 00",
        255,
        "00",
    )
}

#[test]
fn other_words_are_no_packets(rt: HostRuntime) -> Result<(), Fail> {
    malformed(
        &rt,
        rt.alloc(),
        &[
            "10 send",
            "10 send ",
            "10 send fe80::1",
            "10 send fe80::1 2001:db8::2",
            "10 send fe80::1 2001:db8::2 17",
            "10 send fe80::1 2001:db8::2 17 ",
            "10 send fe80::1 2001:db8::2 256 -",
            "10 send fe80::1 2001:db8::2 017 -",
            "10 send fe80::1 2001:db8::2 +17 -",
            "10 send fe80::1 2001:db8::2 17 0",
            "10 send fe80::1 2001:db8::2 17 - -",
            "10 send fe80::1  2001:db8::2 17 -",
            "10 send  fe80::1 2001:db8::2 17 -",
            "10 send fe80::1:: 2001:db8::2 17 -",
            "10 send fe80::1 2001:db8::2/64 17 -",
            "10 send fe80::1 17 2001:db8::2 -",
            "10 Send fe80::1 2001:db8::2 17 -",
        ],
    )
}

/// The first words of a source, if the text names one.
fn words(text: &[u8]) -> Option<[u32; 3]> {
    let mut source = read_source(text)?;
    Some([source.next_u32(), source.next_u32(), source.next_u32()])
}

#[test]
fn a_seed_gives_the_words_of_pcg32(rt: HostRuntime) {
    // The words of a generator written anew in Python, whose first two at seed 0 are those of rand_pcg's own test.
    assert!(rt; words(b"seed:0") == Some([0x11cd_d903, 0xfc84_3fd7, 0x1408_33d3]));
    assert!(rt; words(b"seed:1") == Some([0x33a7_0be6, 0x7dbc_f3ee, 0xcadf_4751]));
    assert_eq!(rt;
        words(b"seed:18446744073709551615"),
        Some([0x982f_997e, 0x513d_a686, 0xe017_d20c])
    );
}

#[test]
fn a_word_is_given_each_time(rt: HostRuntime) {
    assert!(rt; words(b"word:0") == Some([0, 0, 0]));
    assert!(rt; words(b"word:1001") == Some([1001, 1001, 1001]));
    assert!(rt; words(b"word:4294967295") == Some([u32::MAX, u32::MAX, u32::MAX]));
}

#[test]
fn longer_words_are_of_32_bits(rt: HostRuntime) -> Result<(), Fail> {
    let Some(mut source) = read_source(b"seed:0") else {
        return Err(Fail::new("no source"));
    };
    assert!(rt; source.next_u64() == 18195738587432868099);
    let Some(mut source) = read_source(b"word:258") else {
        return Err(Fail::new("no source"));
    };
    let mut bytes = [0; 6];
    source.fill_bytes(&mut bytes);
    assert!(rt; bytes == [2, 1, 0, 0, 2, 1]);
    Ok(())
}

#[test]
fn other_texts_name_no_source(rt: HostRuntime) {
    for text in [
        "",
        "0",
        "seed",
        "seed:",
        "seed:01",
        "seed:+1",
        "seed:0x10",
        "seed:1 ",
        "Seed:1",
        "seed:18446744073709551616",
        "word:",
        "word:00",
        "word:-1",
        "word:4294967296",
    ] {
        assert_eq!(rt; words(text.as_bytes()), None);
    }
}
