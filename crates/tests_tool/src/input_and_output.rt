ghost use Rattle.std.specs.Prelude.{◌≡◌, [], ◌∷◌, ◌++◌, Some, None, if◌then◌else◌, ◌&&◌, not, codes, length, refl, ⊤};
ghost use Rattle.std.specs.Str.{is_utf8, bytes_eq};
ghost use Rattle.std.proofs.Common.{ap};
ghost use Rattle.nd_lines.specs.Each.{text_of_each, malformed_of_each};
ghost use Rattle.nd_lines.specs.EachLaws.{each_too_long};

use nd_lines::answering::{Answering, Extent, LONGEST_LINE, Unanswered};
use nd_lines::each::{AnsweringEach, Each};
use nd_lines::input::{Input, Pieces, Reading};
use nd_lines::output::{Output, WriteFault, Writing, write_whole};
use nd_lines::run::run_lines;
use nd_lines::tool_fault::ToolFault;
use std::alloc::Allocator;
use std::str;
use std::test::Fail;

/// Answers a line by itself and a line feed. The line `bad` is malformed, and so is one that is no text.
#[derive(Drop)]
struct Echo;

impl AnsweringEach for Echo {
    ghost answer_to = { λ line. if is_utf8 line && not (bytes_eq line (codes "bad")) then Some (line ++ 10 ∷ []) else None };

    fn answer_each<A: Allocator>(
        &mut self,
        line: &[u8],
        text: &mut String<A>,
    ) -> Result<(), Unanswered> {
        let words = match str::from_utf8(line) {
            Ok(words) => words,
            Err(_) => return Err(Unanswered::Malformed),
        };
        if words == "bad" {
            return Err(Unanswered::Malformed);
        }
        match text.push_str(words) {
            Ok(()) => {}
            Err(_) => return Err(Unanswered::Memory),
        }
        match text.push('\n') {
            Ok(()) => {}
            Err(_) => return Err(Unanswered::Memory),
        }
        Ok(())
    }
}

/// A letter.
fn letter(second: bool) -> &'static str
    ensures { length result.now ≡ 1 }
{
    if second { "b" } else { "a" }
}

/// Answers a line by one letter, in turn by `a` and by `b`. Its text is any that has a byte for each line.
#[derive(Drop)]
struct Turns {
    second: bool,
}

impl Answering for Turns {
    ghost is_malformed = { λ _. ⊥ };

    ghost fails = { λ _ _ _ _. ⊤ };

    ghost failed = { λ _. 0 };

    ghost begins = { λ _ _ _. ⊥ };

    ghost left = { λ _. 0 };

    ghost texts = { λ _ _ n lines told found. (length told ≡ length (text_of_each (λ _. Some (0 ∷ [])) lines)) × (malformed_of_each (λ _. Some (0 ∷ [])) n lines ≡ found) };

    fn answer<A: Allocator>(
        &mut self,
        _line: &[u8],
        text: &mut String<A>,
    ) -> Result<Extent, Unanswered> {
        let letter = letter(self.second);
        self.second = !self.second;
        match text.push_str(letter) {
            Ok(()) => Ok(Extent::Whole),
            Err(_) => Err(Unanswered::Memory),
        }
    }

    ghost no_lines = { λ _ _. (refl, refl) };

    ghost too_long = { λ _ line long n lines. (ap length (each_too_long (λ _. Some (0 ∷ [])) line long n lines).0, (each_too_long (λ _. Some (0 ∷ [])) line long n lines).1) };
}

/// Answers each line by `a` and a line feed, up to the line at which it stops with a part of an answer: its wire fails there, or it is out of memory.
#[derive(Drop)]
struct Stopping {
    before: u64,
    has_wire: bool,
    failures: u64,
}

impl Answering for Stopping {
    ghost texts = { λ _ _ _ _ _ _. ⊤ };

    ghost is_malformed = { λ _. ⊥ };

    ghost fails = { λ _ _ _ _. ⊤ };

    ghost failed = { λ stopping. stopping.failures };

    ghost begins = { λ _ _ _. ⊥ };

    ghost left = { λ _. 0 };

    fn answer<A: Allocator>(
        &mut self,
        _line: &[u8],
        text: &mut String<A>,
    ) -> Result<Extent, Unanswered> {
        if self.before > 0 {
            return match text.push_str("a\n") {
                Ok(()) => {
                    self.before -= 1;
                    Ok(Extent::Whole)
                }
                Err(_) => Err(Unanswered::Memory),
            };
        }
        if text.push_str("a").is_err() {
            return Err(Unanswered::Memory);
        }
        if self.has_wire {
            self.failures = self.failures.saturating_add(1);
            return Err(Unanswered::Wire);
        }
        Err(Unanswered::Memory)
    }

    ghost no_lines = { λ _ _. tt };

    ghost too_long = { λ _ _ _ _ _. tt };
}

/// Takes one byte a write, with one write that fails.
#[derive(Drop)]
struct FailingWriter {
    bytes: Vec<u8>,
    calls: u64,
    failing: u64,
    failures: u64,
}

impl Output for FailingWriter {
    ghost contents = { λ _. None };

    ghost failed = { λ writer. writer.failures };

    fn write(&mut self, buffer: &[u8]) -> Result<usize, WriteFault> {
        self.calls = self.calls.saturating_add(1);
        if buffer.is_empty() {
            return Ok(0);
        }
        if self.calls == self.failing || self.bytes.push(buffer[0]).is_err() {
            self.failures = self.failures.saturating_add(1);
            return Err(WriteFault);
        }
        Ok(1)
    }

    fn failures(&self) -> u64 {
        self.failures
    }
}

/// The answers to an input in pieces, and how the run ended.
fn answers(
    rt: &HostRuntime,
    input: &[u8],
    piece: usize,
) -> Result<(Result<(), ToolFault>, Vec<u8>), Fail> {
    let mut reader = Pieces::new(input, piece.max(1));
    let mut writer = Writing::new(Vec::new(rt.alloc()));
    let ended = run_lines(rt.alloc(), &mut reader, &mut writer, &mut Each::new(Echo));
    Ok((ended, writer.into_inner()))
}

#[test]
fn any_pieces(rt: HostRuntime) -> Result<(), Fail> {
    for (input, wanted) in [
        (b"one\n\ntwo\n".as_slice(), b"one\n\ntwo\n".as_slice()),
        (b"one\ntwo".as_slice(), b"one\ntwo\n".as_slice()),
        (b"".as_slice(), b"".as_slice()),
        (b"\n".as_slice(), b"\n".as_slice()),
    ] {
        for piece in [1, 2, 3, 100] {
            let (ended, told) = answers(&rt, input, piece)?;
            assert!(rt; ended == Ok(()));
            assert!(rt; told.as_slice() == wanted);
        }
    }
    Ok(())
}

#[test]
fn malformed_lines(rt: HostRuntime) -> Result<(), Fail> {
    for piece in [1, 100] {
        let (ended, told) = answers(&rt, b"one\n\nbad\ntwo\n", piece)?;
        assert!(rt; ended == Err(ToolFault::Line(3)));
        assert!(rt; told.as_slice() == b"one\n\n".as_slice());
        let (ended, told) = answers(&rt, b"one\nbad", piece)?;
        assert!(rt; ended == Err(ToolFault::Line(2)));
        assert!(rt; told.as_slice() == b"one\n".as_slice());
    }
    Ok(())
}

#[test]
fn a_text_that_the_lines_alone_do_not_give(rt: HostRuntime) -> Result<(), Fail> {
    for piece in [1, 100] {
        let mut reader = Pieces::new(b"one\n\nthree", piece);
        let mut writer = Writing::new(Vec::new(rt.alloc()));
        let mut turns = Turns { second: false };
        let ended = run_lines(rt.alloc(), &mut reader, &mut writer, &mut turns);
        assert!(rt; ended == Ok(()));
        assert!(rt; writer.into_inner().as_slice() == b"aba".as_slice());
    }
    Ok(())
}

#[test]
fn longest_lines(rt: HostRuntime) -> Result<(), Fail> {
    let mut longest = vec![in rt.alloc(); b'a'; LONGEST_LINE]?;
    longest.push(b'\n')?;
    for piece in [1, 1000, 100000] {
        let (ended, told) = answers(&rt, longest.as_slice(), piece)?;
        assert!(rt; ended == Ok(()));
        assert!(rt; told.as_slice() == longest.as_slice());
    }
    let mut too_long = Vec::from_slice(rt.alloc(), b"one\na")?;
    too_long.extend_from_slice(longest.as_slice())?;
    for piece in [1, 1000, 100000] {
        let (ended, told) = answers(&rt, too_long.as_slice(), piece)?;
        assert!(rt; ended == Err(ToolFault::Line(2)));
        assert!(rt; told.as_slice() == b"one\n".as_slice());
    }
    let (ended, told) = answers(&rt, &too_long[..too_long.len() - 1], 100000)?;
    assert!(rt; ended == Err(ToolFault::Line(2)));
    assert!(rt; told.as_slice() == b"one\n".as_slice());
    Ok(())
}

#[test]
fn more_than_the_buffer_holds(rt: HostRuntime) -> Result<(), Fail> {
    let mut input = Vec::new(rt.alloc());
    for _ in 0..20000 {
        input.extend_from_slice(b"thirteen here\n")?;
    }
    for piece in [999, 1000000] {
        let (ended, told) = answers(&rt, input.as_slice(), piece)?;
        assert!(rt; ended == Ok(()));
        assert!(rt; told.as_slice() == input.as_slice());
    }
    Ok(())
}

#[test]
fn one_byte_a_write(rt: HostRuntime) -> Result<(), Fail> {
    let mut reader = Reading::new(b"a\nb\nbad\n".as_slice());
    let mut writer = FailingWriter {
        bytes: Vec::new(rt.alloc()),
        calls: 0,
        failing: 0,
        failures: 0,
    };
    let ended = run_lines(rt.alloc(), &mut reader, &mut writer, &mut Each::new(Echo));
    assert!(rt; ended == Err(ToolFault::Line(3)));
    assert!(rt; reader.failures() == 0);
    assert!(rt; writer.bytes.as_slice() == b"a\nb\n".as_slice());
    Ok(())
}

/// The answers to the lines before the one that has none are written, whole, and nothing of that one.
#[test]
fn each_line_failing_in_turn(rt: HostRuntime) -> Result<(), Fail> {
    for (has_wire, fault) in [(false, ToolFault::Memory), (true, ToolFault::Wire)] {
        for (before, wanted) in [
            (0, b"".as_slice()),
            (1, b"a\n".as_slice()),
            (2, b"a\na\n".as_slice()),
        ] {
            for piece in [1, 2, 100] {
                let mut reader = Pieces::new(b"1\n2\n3", piece);
                let mut writer = Writing::new(Vec::new(rt.alloc()));
                let mut stopping = Stopping {
                    before,
                    has_wire,
                    failures: 0,
                };
                let ended = run_lines(rt.alloc(), &mut reader, &mut writer, &mut stopping);
                assert!(rt; ended == Err(fault));
                assert!(rt; writer.into_inner().as_slice() == wanted);
            }
        }
    }
    Ok(())
}

/// If a write fails too, its fault is returned, and the wire has counted its own.
#[test]
fn a_write_failing_after_the_wire(rt: HostRuntime) -> Result<(), Fail> {
    let mut reader = Pieces::new(b"1\n2\n3\n", 100);
    let mut writer = FailingWriter {
        bytes: Vec::new(rt.alloc()),
        calls: 0,
        failing: 3,
        failures: 0,
    };
    let mut stopping = Stopping {
        before: 2,
        has_wire: true,
        failures: 0,
    };
    let ended = run_lines(rt.alloc(), &mut reader, &mut writer, &mut stopping);
    assert!(rt; ended == Err(ToolFault::Write));
    assert!(rt; stopping.failures == 1);
    assert!(rt; writer.bytes.as_slice() == b"a\n".as_slice());
    Ok(())
}

#[test]
fn a_writer_that_takes_nothing(rt: HostRuntime) -> Result<(), Fail> {
    let mut room = [0; 2];
    let mut writer = Writing::new(room.as_mut_slice());
    assert!(rt; write_whole(&mut writer, b"abc") == Err(WriteFault));
    assert!(rt; writer.failures() == 1);
    Ok(())
}

#[test]
fn fault_texts(rt: HostRuntime) -> Result<(), Fail> {
    for (fault, text, status) in [
        (ToolFault::Line(7), "line 7: malformed", 2),
        (ToolFault::Memory, "no memory", 3),
        (ToolFault::Read, "input failed", 4),
        (ToolFault::Write, "output failed", 4),
        (ToolFault::Wire, "wire failed", 4),
    ] {
        assert_eq!(rt; fault.to_string(rt.alloc())?.as_str(), text);
        assert_eq!(rt; fault.status(), status);
    }
    Ok(())
}
