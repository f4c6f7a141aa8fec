//! A link that reaches far: no memory is refused there, and none is said to be.

use nd_lines::input::Pieces;
use nd_lines::output::Writing;
use nd_link::MemoryWire;
use ndpctl_link::{LinkScript, run_link};
use std::alloc::{AllocError, Global};
use std::fmt::Write;
use std::test::*;

/// How often the router advertises: more than 4,096 turns up to one event, and more than 1,024 frames.
const ADVERTISEMENTS: u64 = 5000;

/// A router that advertises each 3 s, and a host; both have 5,000 advertisements' time. Then the last of them is delivered, and one line is far too
/// late.
fn lines(alloc: Global, last: u64) -> Result<String, AllocError> {
    let mut lines = String::from_str(
        alloc,
        "0 node router 02:00:00:00:00:01 word:0\n0 on 0 advertise 3 4 - 64 - 0 0 0\n0 node host 34:56:78:9a:bc:de word:0\n",
    )?;
    // Two solicitations for addresses and three for routers are among the frames before the last advertisement.
    let frame = 5 + ADVERTISEMENTS - 1;
    writeln!(lines, "{last} deliver 1 {frame}\n1001 deliver 1 4")?;
    Ok(lines)
}

/// What is reported of them (RFC 4861, sections 6.2.4 and 6.3.7).
fn wanted(alloc: Global, last: u64) -> Result<String, AllocError> {
    let mut wanted = String::from_str(
        alloc,
        "n0 0 tx 3333ff00000102000000000186dd6000000000183aff00000000000000000000000000000000ff0200000000000000000001ff00000187007d2500000000fe80000000000000000000fffe000001\nn1 0 tx 3333ff9abcde3456789abcde86dd6000000000183aff00000000000000000000000000000000ff0200000000000000000001ff9abcde870053df00000000fe80000000000000365678fffe9abcde\nn0 1000 assigned fe80::ff:fe00:1\n",
    )?;
    for n in 0..ADVERTISEMENTS {
        let at = 1000 + 3000 * n;
        writeln!(
            wanted,
            "n0 {at} tx 33330000000102000000000186dd6000000000183afffe80000000000000000000fffe000001ff02000000000000000000000000000186003a194000000c00000000000000000101020000000001"
        )?;
        // The host's solicitations for routers, at 1, 5 and 9 s.
        if n == 0 {
            wanted.push_str("n1 1000 assigned fe80::3656:78ff:fe9a:bcde\n")?;
        }
        if n == 0 || n == 1 || n == 2 {
            let at = 1000 + 4000 * n;
            writeln!(
                wanted,
                "n1 {at} tx 3333000000023456789abcde86dd6000000000103afffe80000000000000365678fffe9abcdeff0200000000000000000000000000028500a78f0000000001013456789abcde"
            )?;
        }
    }
    writeln!(wanted, "n1 {last} heard ra\nlink 1001 refused past {last}")?;
    Ok(wanted)
}

#[test]
fn a_link_of_many_frames(rt: HostRuntime) {
    let last = 1000 + 3000 * (ADVERTISEMENTS - 1);
    let lines = lines(rt.alloc(), last).expect(&rt, "memory");
    let mut script = LinkScript::new(rt.alloc(), MemoryWire);
    let mut reader = Pieces::new(lines.as_bytes(), 4096);
    let mut writer = Writing::new(Vec::new(rt.alloc()));
    let done = run_link(rt.alloc(), &mut reader, &mut writer, &mut script);
    assert!(rt; done == Ok(()));
    let wanted = wanted(rt.alloc(), last).expect(&rt, "memory");
    assert!(rt; writer.into_inner().as_slice() == wanted.as_bytes());
}
