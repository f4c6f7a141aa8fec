//! A host on its link: it starts, hears a Router Advertisement, and has an address and a default router then.
#![tactic(auto)]

use nd_addr::{Mac, Role};
use nd_node::{Event, Limits, Node};
use nd_out::{Reports, write_outs};
use nd_slaac::Transmits;
use rand_core::SeedableRng;
use rand_pcg::Pcg32;
use std::alloc::{AllocError, Global};

/// The host's link-layer address.
const MAC: Mac = Mac([0x34, 0x56, 0x78, 0x9a, 0xbc, 0xde]);

/// A Router Advertisement from fe80::ff:fe00:1 for 2001:db8:1::/64, with a router lifetime of 1800 seconds.
const ADVERTISEMENT: &str =
    "33330000000102000000000186dd6000000000383afffe80000000000000000000fffe000001ff0200000000000000000000000000018600f9cd\
    4000070800000000000000000101020000000001030440c000278d0000093a800000000020010db8000100000000000000000000";

/// Returns what the host has sent and reported, its addresses, its default routers, and when something is due next.
fn report(
    alloc: Global,
    host: &Node<Pcg32, Global>,
    outs: &mut Reports<Global>,
) -> Result<String<Global>, AllocError> {
    let mut text = String::new(alloc);
    write_outs(&mut text, outs)?;
    for address in host.addresses(host.last_moment()) {
        address.addr.write_text(&mut text)?;
        text.push_str(" is an address\n")?;
    }
    for router in host.default_routers(host.last_moment()) {
        router.addr.write_text(&mut text)?;
        text.push_str(" is a default router\n")?;
    }
    let next = host.next_due();
    writeln!(text, "next due at {next}")?;
    Ok(text)
}

/// Starts a host that receives the frame at 3 s, and returns what it knows at 6 s.
fn live(alloc: Global, frame: &[u8]) -> Result<String<Global>, AllocError> {
    let random = Pcg32::seed_from_u64(1);
    let limits = Limits::usual();
    let Ok(mut host) = Node::new(alloc, Role::Host, MAC, 0, Transmits::ONE, limits, random) else {
        return Err(AllocError);
    };
    // All that is due up to a moment, in milliseconds, is done before its event: here the detection for the link-local address.
    let mut outs = Reports::new(alloc)?;
    host.receive(3_000, frame, &mut outs)?;
    host.event(6_000, &Event::Passes, &mut outs)?;
    report(alloc, &host, &mut outs)
}

fn main(rt: HostRuntime) -> anyhow::Result<()> {
    let frame = hex::decode(rt.alloc(), ADVERTISEMENT)?;
    let text = live(rt.alloc(), &frame)?;
    print!(rt; "{text}")?;
    Ok(())
}
