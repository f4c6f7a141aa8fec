//! Floods of a node: one neighbour, one default router, one prefix, one offer or one route more than its limits allow; of the first two for any
//! limits.
//!
//! Neighbour `n` has the address fe80::1:n and an Ethernet address whose last two bytes are those of 0xffff - n, so the words that depend on `n`
//! cancel in the checksum of a message that has both.

use crate::tested::{Tested, host, router, run_on};
use nd_node::Limits;
use std::alloc::{AllocError, Global};
use std::fmt::Write;
use std::process::Abort;
use std::test::*;

/// A script, and the text that a node writes for it.
#[derive(Drop)]
struct Flood {
    script: String,
    wanted: String,
}

impl Flood {
    /// Adds lines, and what a node writes for them.
    fn push(&mut self, lines: &str, wanted: &str) -> Result<(), AllocError> {
        self.script.push_str(lines)?;
        self.wanted.push_str(wanted)
    }
}

/// The lines of a host that is left alone for 10 s.
const ALONE: &str =
    "0 tx 3333ff9abcde3456789abcde86dd6000000000183aff00000000000000000000000000000000ff0200000000000000000001ff9abcde870053df00000000fe80000000000000365678fffe9abcde\n1000 assigned fe80::3656:78ff:fe9a:bcde\n1000 tx 3333000000023456789abcde86dd6000000000103afffe80000000000000365678fffe9abcdeff0200000000000000000000000000028500a78f0000000001013456789abcde\n5000 tx 3333000000023456789abcde86dd6000000000103afffe80000000000000365678fffe9abcdeff0200000000000000000000000000028500a78f0000000001013456789abcde\n9000 tx 3333000000023456789abcde86dd6000000000103afffe80000000000000365678fffe9abcdeff0200000000000000000000000000028500a78f0000000001013456789abcde\n";

/// An advertisement with an on-link prefix, and the lines of a host that hears it at 1200.
const ADVERTISED: &str =
    "1200 rx 33330000000102000000000186dd6000000000383afffe80000000000000000000fffe000001ff0200000000000000000000000000018600f9ce4000070800000000000000000101020000000001030440c000278d0000093a800000000020010db8000000000000000000000000\n2200 at\n";

const ON_LINK: &str =
    "0 tx 3333ff9abcde3456789abcde86dd6000000000183aff00000000000000000000000000000000ff0200000000000000000001ff9abcde870053df00000000fe80000000000000365678fffe9abcde\n1000 assigned fe80::3656:78ff:fe9a:bcde\n1000 tx 3333000000023456789abcde86dd6000000000103afffe80000000000000365678fffe9abcdeff0200000000000000000000000000028500a78f0000000001013456789abcde\n1200 heard ra\n1200 tx 3333ff9abcde3456789abcde86dd6000000000183aff00000000000000000000000000000000ff0200000000000000000001ff9abcde870024a70000000020010db800000000365678fffe9abcde\n2200 assigned 2001:db8::3656:78ff:fe9a:bcde\n";

/// A router with two static routes.
const ROUTES: &str = "1000 route 2001:db8::/64 direct\n1000 route 2001:db8:1::/64 fe80::2\n";

const ROUTER_STARTED: &str =
    "0 tx 3333ff00000102000000000186dd6000000000183aff00000000000000000000000000000000ff0200000000000000000001ff00000187007d2500000000fe80000000000000000000fffe000001\n1000 assigned fe80::ff:fe00:1\n";

/// `limit` routers advertise, and then one more (RFC 4861, section 6.3.4).
fn of_routers(flood: &mut Flood, limit: u16) -> Result<(), AllocError> {
    flood.push("10000 at\n", ALONE)?;
    for n in 1..=limit.saturating_add(1) {
        let checksum = 0x3527u16.saturating_sub(n);
        writeln!(
            flood.script,
            "10000 rx 33330000000102000000000186dd6000000000103afffe80000000000000000000000001{n:04x}ff0200000000000000000000000000018600{checksum:04x}400007080000000000000000"
        )?;
    }
    flood.script.push_str("10000 show routers\n")?;
    for _ in 0..limit {
        flood.wanted.push_str("10000 heard ra\n")?;
    }
    flood.wanted.push_str("10000 refused full routers\n")?;
    for n in 1..=limit {
        writeln!(flood.wanted, "10000 router fe80::1:{n:x} 1800000 medium")?;
    }
    writeln!(flood.wanted, "10000 end {limit}")?;
    Ok(())
}

/// One advertisement says that 65 prefixes are on the link for 30 days, from 2001:db8:1::/64 to 2001:db8:41::/64: one more than a node keeps.
fn of_prefixes(flood: &mut Flood) -> Result<(), AllocError> {
    flood.push("10000 at\n", ALONE)?;
    flood.script.push_str(
        "10000 rx 33330000000102000000000186dd6000000008303afffe800000000000000000000000000001ff0200000000000000000000000000018600b029400007080000000000000000",
    )?;
    for n in 1..=65u16 {
        write!(
            flood.script,
            "0304408000278d0000093a800000000020010db8{n:04x}00000000000000000000"
        )?;
    }
    flood.push(
        "\n10000 show prefixes\n",
        "10000 refused full prefixes\n10000 end 0\n",
    )
}

/// Neighbour `n` asks a host for its address at 10 s and `n` ms, and gives its link-layer address.
fn push_solicitation(flood: &mut Flood, n: u16) -> Result<(), AllocError> {
    let at = 10_000 + u64::from(n);
    let mac = u16::MAX.saturating_sub(n);
    writeln!(
        flood.script,
        "{at} rx 3333ff9abcde02000000{mac:04x}86dd6000000000203afffe80000000000000000000000001{n:04x}ff0200000000000000000001ff9abcde8700525400000000fe80000000000000365678fffe9abcde010102000000{mac:04x}"
    )
}

/// The host answers it.
fn push_answer(flood: &mut Flood, n: u16) -> Result<(), AllocError> {
    let at = 10_000 + u64::from(n);
    let mac = u16::MAX.saturating_sub(n);
    let checksum = 0xdab1u16.saturating_sub(n);
    writeln!(
        flood.wanted,
        "{at} heard ns\n{at} tx 02000000{mac:04x}3456789abcde86dd6000000000203afffe80000000000000365678fffe9abcdefe80000000000000000000000001{n:04x}8800{checksum:04x}60000000fe80000000000000365678fffe9abcde02013456789abcde"
    )
}

/// `limit` neighbours ask a host for its address, one each millisecond, and then one more. A solicitation of `::` is still answered.
/// `is_confirmed`: an upper layer confirms each of them, so that all are REACHABLE (RFC 4861, section 7.3.1).
fn of_solicitations(flood: &mut Flood, limit: u16, is_confirmed: bool) -> Result<(), AllocError> {
    flood.push("10000 at\n", ALONE)?;
    let last = limit.saturating_add(1);
    for n in 1..=last {
        push_solicitation(flood, n)?;
        if is_confirmed {
            let at = 10_000 + u64::from(n);
            writeln!(flood.script, "{at} confirm fe80::1:{n:x}")?;
        }
    }
    for n in 1..=limit {
        push_answer(flood, n)?;
    }
    let at = 10_000 + u64::from(last);
    writeln!(
        flood.script,
        "{at} rx 3333ff9abcde3456789abcde86dd6000000000183aff00000000000000000000000000000000ff0200000000000000000001ff9abcde870053df00000000fe80000000000000365678fffe9abcde"
    )?;
    writeln!(
        flood.wanted,
        "{at} refused full neighbours\n{at} heard ns\n{at} tx 3333000000013456789abcde86dd6000000000203afffe80000000000000365678fffe9abcdeff02000000000000000000000000000188001a3020000000fe80000000000000365678fffe9abcde02013456789abcde"
    )?;
    Ok(())
}

/// The neighbours of `of_solicitations` are shown, once all were confirmed.
fn show_confirmed(flood: &mut Flood, limit: u16) -> Result<(), AllocError> {
    let at = 10_001 + u64::from(limit);
    writeln!(flood.script, "{at} show neighbours")?;
    for n in 1..=limit {
        let [high, low] = u16::MAX.saturating_sub(n).to_be_bytes();
        writeln!(
            flood.wanted,
            "{at} neighbour fe80::1:{n:x} 02:00:00:00:{high:02x}:{low:02x} reachable host"
        )?;
    }
    writeln!(flood.wanted, "{at} end {limit}")?;
    Ok(())
}

/// A host sends to `limit` unresolved addresses of the on-link prefix, and then to one more. The last packet that finds room evicts the router,
/// which is STALE.
fn of_packets(flood: &mut Flood, limit: u16) -> Result<(), AllocError> {
    flood.push(ADVERTISED, ON_LINK)?;
    for n in 1..=limit.saturating_add(1) {
        writeln!(
            flood.script,
            "3000 send 2001:db8::3656:78ff:fe9a:bcde 2001:db8::{n:x} 17 -"
        )?;
    }
    flood.script.push_str("3000 show neighbours\n")?;
    for n in 1..=limit {
        let checksum = 0x78c6u16.saturating_sub(n).saturating_sub(n);
        writeln!(
            flood.wanted,
            "3000 tx 3333ff00{n:04x}3456789abcde86dd6000000000203afffe80000000000000365678fffe9abcdeff0200000000000000000001ff00{n:04x}8700{checksum:04x}0000000020010db800000000000000000000{n:04x}01013456789abcde"
        )?;
    }
    flood.wanted.push_str("3000 refused full neighbours\n")?;
    for n in 1..=limit {
        writeln!(
            flood.wanted,
            "3000 neighbour 2001:db8::{n:x} - incomplete host"
        )?;
    }
    writeln!(flood.wanted, "3000 end {limit}")?;
    Ok(())
}

/// All but one of the neighbours of a router ask it for its address, one each millisecond. A packet that needs two more neighbours, its hop and
/// its source, which a Redirect goes to, finds no room.
fn of_forwarding(flood: &mut Flood, limit: u16) -> Result<(), AllocError> {
    flood.push(ROUTES, ROUTER_STARTED)?;
    for n in 1..limit {
        let at = 1000 + u64::from(n);
        let mac = u16::MAX.saturating_sub(n);
        writeln!(
            flood.script,
            "{at} rx 3333ff00000102000000{mac:04x}86dd6000000000203afffe80000000000000000000000001{n:04x}ff0200000000000000000001ff00000187007b9a00000000fe80000000000000000000fffe000001010102000000{mac:04x}"
        )?;
        let checksum = 0x9a1cu16.saturating_sub(n);
        writeln!(
            flood.wanted,
            "{at} heard ns\n{at} tx 02000000{mac:04x}02000000000186dd6000000000203afffe80000000000000000000fffe000001fe80000000000000000000000001{n:04x}8800{checksum:04x}e0000000fe80000000000000000000fffe0000010201020000000001"
        )?;
    }
    let at = 1000 + u64::from(limit);
    writeln!(
        flood.script,
        "{at} rx 02000000000102000000000986dd600000000000114020010db800000000000000000000000920010db8000100000000000000000005\n{at} show neighbours"
    )?;
    writeln!(flood.wanted, "{at} refused full neighbours")?;
    for n in 1..limit {
        let [high, low] = u16::MAX.saturating_sub(n).to_be_bytes();
        writeln!(
            flood.wanted,
            "{at} neighbour fe80::1:{n:x} 02:00:00:00:{high:02x}:{low:02x} delay host"
        )?;
    }
    writeln!(flood.wanted, "{at} end {}", limit.saturating_sub(1))?;
    Ok(())
}

/// The least, the usual and the greatest limits, of neighbours and of routers.
const LIMITS: [(u16, u8); 3] = [(1, 1), (512, 16), (2048, 64)];

/// The node with these limits, and no flood yet.
fn limited(
    rt: &impl Abort,
    alloc: Global,
    node: Tested,
    neighbours: u16,
    routers: u8,
) -> (Tested, Flood) {
    let node = Tested {
        limits: Limits::new(neighbours, routers).expect(rt, "limits"),
        ..node
    };
    let flood = Flood {
        script: String::new(alloc),
        wanted: String::new(alloc),
    };
    (node, flood)
}

/// Runs the node on the flood.
fn ends(rt: &impl Abort, alloc: Global, node: &Tested, flood: &Flood) {
    run_on(rt, alloc, node, &flood.script, &flood.wanted);
}

#[test]
fn a_router_too_many_is_refused(rt: HostRuntime) {
    for (neighbours, routers) in LIMITS {
        let (node, mut flood) = limited(&rt, rt.alloc(), host(), neighbours, routers);
        of_routers(&mut flood, u16::from(routers)).expect(&rt, "memory");
        ends(&rt, rt.alloc(), &node, &flood);
    }
}

#[test]
fn a_prefix_too_many_is_refused(rt: HostRuntime) {
    let (node, mut flood) = limited(&rt, rt.alloc(), host(), 512, 16);
    of_prefixes(&mut flood).expect(&rt, "memory");
    ends(&rt, rt.alloc(), &node, &flood);
}

#[test]
fn a_solicitation_too_many_is_refused(rt: HostRuntime) {
    for (neighbours, routers) in LIMITS {
        let (node, mut flood) = limited(&rt, rt.alloc(), host(), neighbours, routers);
        of_solicitations(&mut flood, neighbours, false).expect(&rt, "memory");
        ends(&rt, rt.alloc(), &node, &flood);
    }
}

/// 300 neighbours ask a host for its address, and then one that doesn't give its link-layer address: the host asks for that before it answers (RFC
/// 4861, section 7.2.4).
fn of_an_unknown_asker(flood: &mut Flood) -> Result<(), AllocError> {
    flood.push("10000 at\n", ALONE)?;
    for n in 1..=300 {
        push_solicitation(flood, n)?;
        push_answer(flood, n)?;
    }
    flood.push(
        "10301 rx 3333ff9abcde02000000000186dd6000000000183afffe80000000000000000000000001012dff0200000000000000000001ff9abcde8700543000000000fe80000000000000365678fffe9abcde\n",
        "10301 heard ns\n10301 tx 3333ff01012d3456789abcde86dd6000000000203afffe80000000000000365678fffe9abcdeff0200000000000000000001ff01012d8700a5a200000000fe80000000000000000000000001012d01013456789abcde\n",
    )
}

#[test]
fn an_unknown_asker_beside_300_neighbours_is_solicited(rt: HostRuntime) {
    let (node, mut flood) = limited(&rt, rt.alloc(), host(), 512, 16);
    of_an_unknown_asker(&mut flood).expect(&rt, "memory");
    ends(&rt, rt.alloc(), &node, &flood);
}

/// Neighbours that are all confirmed are shown so, refuse one more, and hinder no answer to a detection (RFC 4862, section 5.4.3).
#[test]
fn a_solicitation_too_many_is_refused_by_confirmed_neighbours(rt: HostRuntime) {
    for (neighbours, routers) in LIMITS {
        let (node, mut flood) = limited(&rt, rt.alloc(), host(), neighbours, routers);
        of_solicitations(&mut flood, neighbours, true).expect(&rt, "memory");
        show_confirmed(&mut flood, neighbours).expect(&rt, "memory");
        ends(&rt, rt.alloc(), &node, &flood);
    }
}

#[test]
fn a_packet_too_many_is_refused(rt: HostRuntime) {
    for (neighbours, routers) in LIMITS {
        let (node, mut flood) = limited(&rt, rt.alloc(), host(), neighbours, routers);
        of_packets(&mut flood, neighbours).expect(&rt, "memory");
        ends(&rt, rt.alloc(), &node, &flood);
    }
}

#[test]
fn a_forwarded_packet_too_many_is_refused(rt: HostRuntime) {
    for (neighbours, routers) in LIMITS {
        let (node, mut flood) = limited(&rt, rt.alloc(), router(), neighbours, routers);
        of_forwarding(&mut flood, neighbours).expect(&rt, "memory");
        ends(&rt, rt.alloc(), &node, &flood);
    }
}

/// A router is to advertise 17 prefixes and to have 65 routes, one more than it keeps of each; an existing one may be put again (our limits).
fn of_offers_and_routes(flood: &mut Flood) -> Result<(), AllocError> {
    for n in 0..17u16 {
        writeln!(flood.script, "0 prefix 2001:db8:{n}::/64 - - la")?;
    }
    for n in 0..65u16 {
        writeln!(flood.script, "0 route 2001:db8:{n}::/64 direct")?;
    }
    flood.push(
        "0 prefix 2001:db8:0::/64 - - l\n0 route 2001:db8:0::/64 fe80::2\n",
        "0 tx 3333ff00000102000000000186dd6000000000183aff00000000000000000000000000000000ff0200000000000000000001ff00000187007d2500000000fe80000000000000000000fffe000001\n0 refused full offers\n0 refused full routes\n",
    )
}

#[test]
fn offers_and_routes_are_limited(rt: HostRuntime) {
    let (node, mut flood) = limited(&rt, rt.alloc(), router(), 512, 16);
    of_offers_and_routes(&mut flood).expect(&rt, "memory");
    ends(&rt, rt.alloc(), &node, &flood);
}
