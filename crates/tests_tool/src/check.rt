//! The longest line of `check`. Other frames with their lines are rows of `crates/tests_hostile/stdin`.

use nd_lines::input::Pieces;
use nd_lines::output::Writing;
use nd_lines::tool_fault::ToolFault;
use ndpctl_check::run_check;
use std::process::Abort;
use std::test::*;

/// Runs over an input in pieces, and expects what is answered and how it ends.
fn expect(
    rt: &(impl Abort + AllocGlobal),
    input: &str,
    piece: usize,
    answers: &str,
    end: Result<(), ToolFault>,
) -> Result<(), Fail> {
    let mut reader = Pieces::new(input.as_bytes(), piece.max(1));
    let mut writer = Writing::new(Vec::new(rt.alloc()));
    let result = run_check(rt.alloc(), &mut reader, &mut writer);
    let written = writer.into_inner();
    assert!(rt; written.as_slice() == answers.as_bytes());
    assert!(rt; result == end);
    Ok(())
}

/// The headers and the fields of a Router Solicitation of 8,136 bytes, the checksum being that of the options that follow in the test.
const LONG_SOLICITATION: &str =
    "3333000000023456789abcde86dd600000001fc83afffe80000000000000365678fffe9abcdeff020000000000000000\
    00000000000285006e7200000000";

/// The longest line: a frame of 8,192 bytes, which are 54 of headers, 8 of fields, 1,016 options of 8 bytes, half of them addresses and
/// half of them MTUs, and 2 of padding. A line of one byte more is malformed.
#[test]
fn the_longest_frame_is_told(rt: HostRuntime) -> Result<(), Fail> {
    let mut line = String::new(rt.alloc());
    line.push_str(LONG_SOLICITATION)?;
    let mut answer = String::new(rt.alloc());
    answer.push_str("rs fe80::3656:78ff:fe9a:bcde ff02::2")?;
    for _ in 0..508 {
        line.push_str("01013456789abcde05010000000005dc")?;
        answer.push_str(" slla 34:56:78:9a:bc:de mtu 1500")?;
    }
    line.push_str("0000")?;
    answer.push_str("\n")?;
    assert!(rt; line.len() == 16384);
    expect(&rt, &line, 65536, &answer, Ok(()))?;
    expect(&rt, &line, 1000, &answer, Ok(()))?;
    line.push_str("00")?;
    expect(&rt, &line, 65536, "", Err(ToolFault::Line(1)))
}
