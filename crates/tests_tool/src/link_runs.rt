use nd_lines::input::Pieces;
use nd_lines::output::Writing;
use nd_lines::tool_fault::ToolFault;
use nd_link::{FailingWire, MemoryWire, UdpWire, Wire};
use ndpctl_link::*;
use std::alloc::Global;
use std::process::Abort;
use std::test::*;

/// Two hosts try one address at a time, and find it a duplicate (RFC 4862, section 5.4.3).
const TWO_TRY: &str =
    "0 node host 34:56:78:9a:bc:de word:0\n0 node host 34:56:78:9a:bc:de word:0\n400 deliver 1 0\n400 deliver 0 1\n";

const BOTH_SENT: &str =
    "n0 0 tx 3333ff9abcde3456789abcde86dd6000000000183aff00000000000000000000000000000000ff0200000000000000000001ff9abcde870053df00000000fe80000000000000365678fffe9abcde\nn1 0 tx 3333ff9abcde3456789abcde86dd6000000000183aff00000000000000000000000000000000ff0200000000000000000001ff9abcde870053df00000000fe80000000000000365678fffe9abcde\n";

/// What the first two of these lines say: the second host sends after the third line.
const FIRST_SENT: &str =
    "n0 0 tx 3333ff9abcde3456789abcde86dd6000000000183aff00000000000000000000000000000000ff0200000000000000000001ff9abcde870053df00000000fe80000000000000365678fffe9abcde\n";

const FIRST_HEARD: &str = "n1 400 heard ns\nn1 400 duplicate fe80::3656:78ff:fe9a:bcde\n";

const SECOND_HEARD: &str = "n0 400 heard ns\nn0 400 duplicate fe80::3656:78ff:fe9a:bcde\n";

/// One host tries an address that another holds, which answers (RFC 4861, section 7.2.4).
const ONE_HOLDS: &str =
    "0 node host 34:56:78:9a:bc:de word:0\n2000 node host 34:56:78:9a:bc:de word:0\n2400 deliver 0 2\n2800 deliver 1 3\n2800 deliver 0 9\n";

const HELD: &str =
    "n0 0 tx 3333ff9abcde3456789abcde86dd6000000000183aff00000000000000000000000000000000ff0200000000000000000001ff9abcde870053df00000000fe80000000000000365678fffe9abcde\nn0 1000 assigned fe80::3656:78ff:fe9a:bcde\nn0 1000 tx 3333000000023456789abcde86dd6000000000103afffe80000000000000365678fffe9abcdeff0200000000000000000000000000028500a78f0000000001013456789abcde\nn1 2000 tx 3333ff9abcde3456789abcde86dd6000000000183aff00000000000000000000000000000000ff0200000000000000000001ff9abcde870053df00000000fe80000000000000365678fffe9abcde\nn0 2400 heard ns\nn0 2400 tx 3333000000013456789abcde86dd6000000000203afffe80000000000000365678fffe9abcdeff02000000000000000000000000000188001a3020000000fe80000000000000365678fffe9abcde02013456789abcde\nn1 2800 heard na\nn1 2800 duplicate fe80::3656:78ff:fe9a:bcde\nlink 2800 refused no-frame\n";

/// One host tries an address three times that another holds. The first solicitation is lost; the second one arrives, and its answer (RFC 4862,
/// section 5.4).
const SECOND_OF_THREE_COMES: &str =
    "0 node host 34:56:78:9a:bc:de word:0\n2000 node host 34:56:78:9a:bc:de word:0 3\n3400 deliver 0 3\n3800 deliver 1 4\n5000 on 1 at\n";

const HELD_AGAINST_THREE: &str =
    "n0 0 tx 3333ff9abcde3456789abcde86dd6000000000183aff00000000000000000000000000000000ff0200000000000000000001ff9abcde870053df00000000fe80000000000000365678fffe9abcde\nn0 1000 assigned fe80::3656:78ff:fe9a:bcde\nn0 1000 tx 3333000000023456789abcde86dd6000000000103afffe80000000000000365678fffe9abcdeff0200000000000000000000000000028500a78f0000000001013456789abcde\nn1 2000 tx 3333ff9abcde3456789abcde86dd6000000000183aff00000000000000000000000000000000ff0200000000000000000001ff9abcde870053df00000000fe80000000000000365678fffe9abcde\nn1 3000 tx 3333ff9abcde3456789abcde86dd6000000000183aff00000000000000000000000000000000ff0200000000000000000001ff9abcde870053df00000000fe80000000000000365678fffe9abcde\nn0 3400 heard ns\nn0 3400 tx 3333000000013456789abcde86dd6000000000203afffe80000000000000365678fffe9abcdeff02000000000000000000000000000188001a3020000000fe80000000000000365678fffe9abcde02013456789abcde\nn1 3800 heard na\nn1 3800 duplicate fe80::3656:78ff:fe9a:bcde\nn0 5000 tx 3333000000023456789abcde86dd6000000000103afffe80000000000000365678fffe9abcdeff0200000000000000000000000000028500a78f0000000001013456789abcde\n";

/// Three hosts try an address three times each, two of them the same one, and every second frame is lost, the first one too. The frames are
/// numbered in the order in which they are sent: 0, 3, 5 and 7 by the first host, 1, 4 and 6 by the second, 2 by the third.
const EVERY_SECOND_IS_LOST: &str =
    "0 node host 34:56:78:9a:bc:de word:0 3\n0 node host 02:00:00:00:00:01 word:100 3\n0 node host 34:56:78:9a:bc:de word:200 3\n150 deliver 0 1\n150 deliver 2 1\n1050 deliver 1 3\n1050 deliver 2 3\n2050 deliver 1 5\n2050 deliver 2 5\n3050 deliver 1 7\n3050 deliver 2 7\n3060 on 0 show addresses\n3060 on 2 show addresses\n";

/// The second solicitation of the first host reaches the third, which finds the address a duplicate (RFC 4862, section 5.4.3).
const ONE_IS_ASSIGNED: &str =
    "n0 0 tx 3333ff9abcde3456789abcde86dd6000000000183aff00000000000000000000000000000000ff0200000000000000000001ff9abcde870053df00000000fe80000000000000365678fffe9abcde\nn1 100 tx 3333ff00000102000000000186dd6000000000183aff00000000000000000000000000000000ff0200000000000000000001ff00000187007d2500000000fe80000000000000000000fffe000001\nn0 150 drop 19 NotForUs\nn2 150 drop 19 NotForUs\nn2 200 tx 3333ff9abcde3456789abcde86dd6000000000183aff00000000000000000000000000000000ff0200000000000000000001ff9abcde870053df00000000fe80000000000000365678fffe9abcde\nn0 1000 tx 3333ff9abcde3456789abcde86dd6000000000183aff00000000000000000000000000000000ff0200000000000000000001ff9abcde870053df00000000fe80000000000000365678fffe9abcde\nn1 1050 drop 19 NotForUs\nn2 1050 heard ns\nn2 1050 duplicate fe80::3656:78ff:fe9a:bcde\nn1 1100 tx 3333ff00000102000000000186dd6000000000183aff00000000000000000000000000000000ff0200000000000000000001ff00000187007d2500000000fe80000000000000000000fffe000001\nn0 2000 tx 3333ff9abcde3456789abcde86dd6000000000183aff00000000000000000000000000000000ff0200000000000000000001ff9abcde870053df00000000fe80000000000000365678fffe9abcde\nn1 2050 drop 19 NotForUs\nn2 2050 drop 19 NotForUs\nn1 2100 tx 3333ff00000102000000000186dd6000000000183aff00000000000000000000000000000000ff0200000000000000000001ff00000187007d2500000000fe80000000000000000000fffe000001\nn0 3000 assigned fe80::3656:78ff:fe9a:bcde\nn0 3000 tx 3333000000023456789abcde86dd6000000000103afffe80000000000000365678fffe9abcdeff0200000000000000000000000000028500a78f0000000001013456789abcde\nn1 3050 drop 19 NotForUs\nn2 3050 drop 19 NotForUs\nn0 3060 address fe80::3656:78ff:fe9a:bcde preferred inf inf\nn0 3060 end 1\nn2 3060 address fe80::3656:78ff:fe9a:bcde duplicate inf inf\nn2 3060 end 1\n";

/// What a link over a wire writes for some lines, which are read in pieces, and how the run ends.
fn run<W: Wire + Drop>(
    alloc: Global,
    wire: W,
    lines: &str,
    piece: usize,
) -> (Vec<u8>, Result<(), ToolFault>) {
    let mut script = LinkScript::new(alloc, wire);
    let mut reader = Pieces::new(lines.as_bytes(), piece.max(1));
    let mut writer = Writing::new(Vec::new(alloc));
    let done = run_link(alloc, &mut reader, &mut writer, &mut script);
    (writer.into_inner(), done)
}

/// Returns these parts, one after the other.
pub(crate) fn joined(rt: &impl Abort, alloc: Global, parts: &[&str]) -> String {
    let mut text = String::new(alloc);
    for part in parts {
        text.push_str(part).expect(rt, "memory");
    }
    text
}

/// A link over a wire writes this for some lines, and the run ends so.
fn writes<W: Wire + Drop>(
    rt: &(impl Abort + AllocGlobal),
    wire: W,
    lines: &str,
    piece: usize,
    ended: Result<(), ToolFault>,
    wanted: &[&str],
) {
    let (text, done) = run(rt.alloc(), wire, lines, piece);
    let wanted = joined(rt, rt.alloc(), wanted);
    assert!(rt; text.as_slice() == wanted.as_bytes());
    assert!(rt; done == ended);
}

#[test]
fn two_hosts_try_one_address(rt: HostRuntime) {
    let wanted = [BOTH_SENT, FIRST_HEARD, SECOND_HEARD];
    for piece in [1, 7, 4096] {
        writes(&rt, MemoryWire, TWO_TRY, piece, Ok(()), &wanted);
    }
}

#[test]
fn they_try_it_over_datagrams(rt: HostRuntime) {
    let wire = UdpWire::new(&rt, rt.alloc(), 2).expect(&rt, "sockets");
    let wanted = [BOTH_SENT, FIRST_HEARD, SECOND_HEARD];
    writes(&rt, wire, TWO_TRY, 4096, Ok(()), &wanted);
}

#[test]
fn one_holds_the_address(rt: HostRuntime) {
    writes(&rt, MemoryWire, ONE_HOLDS, 4096, Ok(()), &[HELD]);
    let wire = UdpWire::new(&rt, rt.alloc(), 2).expect(&rt, "sockets");
    writes(&rt, wire, ONE_HOLDS, 4096, Ok(()), &[HELD]);
}

#[test]
fn one_solicitation_of_three_is_enough(rt: HostRuntime) {
    writes(
        &rt,
        MemoryWire,
        SECOND_OF_THREE_COMES,
        4096,
        Ok(()),
        &[HELD_AGAINST_THREE],
    );
}

#[test]
fn one_of_two_is_assigned_where_every_second_frame_is_lost(rt: HostRuntime) {
    writes(
        &rt,
        MemoryWire,
        EVERY_SECOND_IS_LOST,
        4096,
        Ok(()),
        &[ONE_IS_ASSIGNED],
    );
}

/// If the wire fails at a line, the answers to all lines before it are written, for any pieces of the lines.
#[test]
fn a_wire_that_fails_ends_the_run(rt: HostRuntime) {
    for piece in [1, 7, 4096] {
        let failed = Err(ToolFault::Wire);
        let first = FailingWire::new(MemoryWire, 0);
        writes(&rt, first, TWO_TRY, piece, failed, &[FIRST_SENT]);
        let second = FailingWire::new(MemoryWire, 1);
        writes(
            &rt,
            second,
            TWO_TRY,
            piece,
            failed,
            &[BOTH_SENT, FIRST_HEARD],
        );
    }
    let (_, done) = run(rt.alloc(), FailingWire::new(MemoryWire, 2), TWO_TRY, 4096);
    assert!(rt; done == Ok(()));
}

#[test]
fn a_malformed_line_ends_the_run(rt: HostRuntime) {
    let lines = joined(
        &rt,
        rt.alloc(),
        &[TWO_TRY, "400 on 0 rx -\n400 deliver 1 0\n"],
    );
    let wanted = [BOTH_SENT, FIRST_HEARD, SECOND_HEARD];
    writes(
        &rt,
        MemoryWire,
        &lines,
        4096,
        Err(ToolFault::Line(5)),
        &wanted,
    );
}

/// A malformed line is reported as one, however long it is.
#[test]
fn a_long_malformed_line_ends_the_run(rt: HostRuntime) {
    let mut lines = joined(&rt, rt.alloc(), &[TWO_TRY, "400 on 0 rx "]);
    for _ in 0..16000 {
        lines.push('0').expect(&rt, "memory");
    }
    let malformed = Err(ToolFault::Line(5));
    let wanted = [BOTH_SENT, FIRST_HEARD, SECOND_HEARD];
    writes(&rt, MemoryWire, &lines, 4096, malformed, &wanted);
    for _ in 0..1000 {
        lines.push('0').expect(&rt, "memory");
    }
    writes(&rt, MemoryWire, &lines, 4096, malformed, &wanted);
}

/// A link goes on where its lines left it: the frame that was sent in the first run is carried in the second one.
#[test]
fn a_link_runs_on(rt: HostRuntime) {
    let mut script = LinkScript::new(rt.alloc(), MemoryWire);
    let mut text = Writing::new(Vec::new(rt.alloc()));
    for lines in [
        "0 node host 34:56:78:9a:bc:de word:0\n0 node host 34:56:78:9a:bc:de word:0\n",
        "400 deliver 1 0\n400 deliver 0 1\n",
    ] {
        let mut reader = Pieces::new(lines.as_bytes(), 4096);
        let done = run_link(rt.alloc(), &mut reader, &mut text, &mut script);
        assert!(rt; done == Ok(()));
    }
    let wanted = joined(&rt, rt.alloc(), &[BOTH_SENT, FIRST_HEARD, SECOND_HEARD]);
    assert!(rt; text.into_inner().as_slice() == wanted.as_bytes());
}
