//! The words of the command line.

use nd_addr::{Mac, Role};
use nd_node::{Limits, Policies};
use nd_random::Source;
use nd_slaac::Transmits;
use ndpctl_args::{Asked, Carrier, Refused, read_words};
use ndpctl_run::RunOptions;
use std::process::Abort;
use std::test::*;

/// What the words after the program's path ask for.
fn read(rt: &(impl Abort + AllocGlobal), words: &[&str]) -> Result<Asked, Refused> {
    let mut all = Vec::new(rt.alloc());
    for word in ["ndpctl"].iter().chain(words) {
        let owned = (*word).to_string(rt.alloc()).expect(rt, "memory");
        all.push(owned).expect(rt, "memory");
    }
    read_words(rt.alloc(), all.as_slice())
}

/// `clap` finds a fault in the words, with this status.
fn is_told(rt: &(impl Abort + AllocGlobal), words: &[&str], status: i32) {
    match read(rt, words) {
        Err(Refused::Told(error)) => assert!(rt; error.exit_code() == status),
        _ => panic!(rt; "not told"),
    }
}

/// The words ask for a link whose frames are carried so.
fn is_link(rt: &(impl Abort + AllocGlobal), words: &[&str], wanted: Carrier) {
    match read(rt, words) {
        Ok(Asked::Link(carrier)) => assert!(rt; carrier == wanted),
        _ => panic!(rt; "no link"),
    }
}

#[test]
fn check_is_read(rt: HostRuntime) {
    assert!(rt; matches!(read(&rt, &["check"]), Ok(Asked::Check)));
    is_told(&rt, &["check", "more"], 2);
}

/// The options of `run` that the words ask for.
fn options(rt: &(impl Abort + AllocGlobal), words: &[&str]) -> RunOptions<Source> {
    match read(rt, words) {
        Ok(Asked::Run(options)) => options,
        _ => panic!(rt; "no run"),
    }
}

#[test]
fn run_is_read(rt: HostRuntime) {
    let words = [
        "run",
        "--role",
        "host",
        "--mac",
        "34:56:78:9a:bc:de",
        "--draws",
        "word:7",
        "--transmits",
        "3",
        "--neighbours",
        "600",
        "--routers",
        "20",
        "--policy",
        "timers",
    ];
    let read = options(&rt, &words);
    assert!(rt; read.role == Role::Host);
    assert!(rt; read.mac == Mac([0x34, 0x56, 0x78, 0x9a, 0xbc, 0xde]));
    assert!(rt; matches!(read.generator, Source::Constant(7)));
    assert!(rt; read.transmits.number() == 3);
    assert!(rt; Some(read.limits) == Limits::new(600, 20));
    assert!(rt; read.policies == Policies::none().with_timers());
}

#[test]
fn options_have_defaults(rt: HostRuntime) {
    let read = options(&rt, &["run", "--mac=02:00:00:00:00:01", "--role=router"]);
    assert!(rt; read.role == Role::Router);
    assert!(rt; matches!(read.generator, Source::Seeded(_)));
    assert!(rt; read.transmits == Transmits::ONE);
    assert!(rt; read.limits == Limits::usual());
    assert!(rt; read.policies == Policies::none());
}

#[test]
fn link_is_read(rt: HostRuntime) {
    is_link(&rt, &["link"], Carrier::Memory);
    is_link(&rt, &["link", "--wire", "memory"], Carrier::Memory);
    is_link(&rt, &["link", "--wire=udp"], Carrier::Udp);
    is_told(&rt, &["link", "--wire", "radio"], 2);
    is_told(&rt, &["link", "--role", "host"], 2);
}

/// Which value is refused.
fn refused(rt: &(impl Abort + AllocGlobal), words: &[&str]) -> &'static str {
    match read(rt, words) {
        Ok(_) => "none",
        Err(Refused::Told(_)) => "clap",
        Err(Refused::Mac) => "mac",
        Err(Refused::Draws) => "draws",
        Err(Refused::Transmits) => "transmits",
        Err(Refused::Neighbours) => "neighbours",
        Err(Refused::Routers) => "routers",
        Err(Refused::Prefixes) => "prefixes",
        Err(Refused::Addresses) => "addresses",
        Err(Refused::Servers) => "servers",
        Err(Refused::Names) => "names",
        Err(Refused::Redirects) => "redirects",
        Err(Refused::Destinations) => "destinations",
        Err(Refused::Offers) => "offers",
        Err(Refused::Routes) => "routes",
        Err(Refused::Waiting) => "waiting",
        Err(Refused::Policy) => "policy",
        Err(Refused::Memory) => "memory",
    }
}

/// The first bad value is refused, in the order of the options, for any order of the words.
#[test]
fn values_are_judged_in_their_order(rt: HostRuntime) {
    for (mac, draws, transmits, neighbours, routers, wanted) in [
        ("02:00", "seed:01", "0", "0", "0", "mac"),
        ("02:00:00:00:00:01", "seed:01", "0", "0", "0", "draws"),
        ("02:00:00:00:00:01", "seed:1", "0", "0", "0", "transmits"),
        ("02:00:00:00:00:01", "seed:1", "8", "0", "0", "neighbours"),
        ("02:00:00:00:00:01", "seed:1", "8", "2048", "0", "routers"),
        ("02:00:00:00:00:01", "seed:1", "8", "2048", "64", "none"),
        ("02:00", "seed:1", "8", "2048", "64", "mac"),
        ("02:00:00:00:00:01", "seed:01", "8", "2048", "64", "draws"),
    ] {
        let words = [
            "run",
            "--routers",
            routers,
            "--neighbours",
            neighbours,
            "--transmits",
            transmits,
            "--draws",
            draws,
            "--mac",
            mac,
            "--role",
            "host",
        ];
        assert_eq!(rt; refused(&rt, &words), wanted);
    }
}

/// The words of a run with one option more.
fn run_with<'a>(option: &'a str, value: &'a str) -> [&'a str; 7] {
    [
        "run",
        "--role",
        "host",
        "--mac",
        "02:00:00:00:00:01",
        option,
        value,
    ]
}

/// The limits in the order in which they are judged: the option, what is refused, and the greatest number.
const LIMITS: [(&str, &str, u16); 11] = [
    ("--neighbours", "neighbours", 2048),
    ("--routers", "routers", 64),
    ("--prefixes", "prefixes", 64),
    ("--addresses", "addresses", 64),
    ("--servers", "servers", 32),
    ("--names", "names", 32),
    ("--redirects", "redirects", 64),
    ("--destinations", "destinations", 256),
    ("--offers", "offers", 16),
    ("--routes", "routes", 64),
    ("--waiting", "waiting", 8),
];

/// Limits with this number in the place of one.
fn with_limit_at(limits: Limits, place: usize, number: u16) -> Option<Limits> {
    match place {
        0 => limits.with_neighbours(number),
        1 => limits.with_routers(number),
        2 => limits.with_prefixes(number),
        3 => limits.with_addresses(number),
        4 => limits.with_servers(number),
        5 => limits.with_names(number),
        6 => limits.with_redirects(number),
        7 => limits.with_destinations(number),
        8 => limits.with_offers(number),
        9 => limits.with_routes(number),
        _ => limits.with_waiting(number),
    }
}

/// Expects that the value of an option is read as the limit of this place, and that no other limit changes.
fn expect_limit(rt: &(impl Abort + AllocGlobal), place: usize, option: &str, number: u16) {
    let value = format!(in rt.alloc(); "{number}").expect(rt, "memory");
    let read = options(rt, &run_with(option, &value));
    let wanted = with_limit_at(Limits::usual(), place, number);
    assert!(rt; Some(read.limits) == wanted);
}

/// Words that are parted by commas, each at most once, in any order.
#[test]
fn policies_are_named_once(rt: HostRuntime) {
    let all = Policies::none()
        .with_parts()
        .with_speakers()
        .with_timers()
        .with_own()
        .with_unicast()
        .with_unformed()
        .with_asked()
        .with_lifetimes()
        .with_unredirected()
        .with_strict();
    for value in [
        "parts,speakers,timers,self,unicast,unformed,asked,lifetimes,unredirected,strict",
        "strict,unicast,lifetimes,timers,unformed,speakers,asked,self,unredirected,parts",
    ] {
        let read = options(&rt, &run_with("--policy", value));
        assert!(rt; read.policies == all);
    }
    for value in [
        "",
        "x",
        "timers,",
        ",timers",
        "timers,timers",
        "timers unicast",
        "unicast,self,unicast",
        "speakers,speakers",
        "parts,self,parts",
        "asked,asked",
        "Strict",
        "announce",
        "solicit",
        "nonce",
        "lookups",
    ] {
        assert_eq!(rt; refused(&rt, &run_with("--policy", value)), "policy");
    }
}

/// Each number is read up to the ends of its range.
#[test]
fn numbers_have_ranges(rt: HostRuntime) {
    for (value, transmits) in [("1", 1), ("8", 8)] {
        let read = options(&rt, &run_with("--transmits", value));
        assert!(rt; read.transmits.number() == transmits);
        assert!(rt; read.limits == Limits::usual());
    }
    for place in 0..LIMITS.len() {
        let (option, _, most) = LIMITS[place];
        expect_limit(&rt, place, option, 1);
        expect_limit(&rt, place, option, most);
    }
}

/// Of two bad limits the first one is refused.
#[test]
fn limits_are_judged_in_their_order(rt: HostRuntime) {
    for place in 0..LIMITS.len() - 1 {
        let (first, wanted, _) = LIMITS[place];
        let (second, _, _) = LIMITS[place + 1];
        let words = [
            "run",
            "--role",
            "host",
            "--mac",
            "02:00:00:00:00:01",
            second,
            "0",
            first,
            "0",
        ];
        assert_eq!(rt; refused(&rt, &words), wanted);
    }
}

/// Numbers outside their range, and words that are no numbers: a sign, a leading zero, a space, and numbers that end in one of the range as a
/// byte, as two bytes or as eight.
#[test]
fn other_words_are_no_numbers(rt: HostRuntime) {
    for (option, greater, wanted) in [
        ("--transmits", "9", "transmits"),
        ("--neighbours", "2049", "neighbours"),
        ("--routers", "65", "routers"),
        ("--prefixes", "65", "prefixes"),
        ("--addresses", "65", "addresses"),
        ("--servers", "33", "servers"),
        ("--names", "33", "names"),
        ("--redirects", "65", "redirects"),
        ("--destinations", "257", "destinations"),
        ("--offers", "17", "offers"),
        ("--routes", "65", "routes"),
        ("--waiting", "9", "waiting"),
    ] {
        assert_eq!(rt; refused(&rt, &run_with(option, greater)), wanted);
        for value in [
            "",
            "0",
            "03",
            "+1",
            "1 ",
            "one",
            "-",
            "65537",
            "18446744073709551617",
        ] {
            assert_eq!(rt; refused(&rt, &run_with(option, value)), wanted);
        }
        // `clap` takes `-1` for an option.
        assert_eq!(rt; refused(&rt, &run_with(option, "-1")), "clap");
    }
}

#[test]
fn clap_tells_first(rt: HostRuntime) {
    let no_mac = ["run", "--role", "host", "--draws", "seed:01"];
    is_told(&rt, &no_mac, 2);
    let bridge = ["run", "--role", "bridge", "--mac", "02:00:00:00:00:01"];
    is_told(&rt, &bridge, 2);
    let twice = ["run", "--role", "host", "--mac", "02:00", "--mac", "02:00"];
    is_told(&rt, &twice, 2);
    is_told(&rt, &[], 2);
}

#[test]
fn help_is_no_fault(rt: HostRuntime) {
    is_told(&rt, &["--help"], 0);
    is_told(&rt, &["run", "--help"], 0);
}
