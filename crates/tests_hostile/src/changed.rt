//! Frames that are cut and changed.

use crate::row::Row;
use crate::run::{NO_FAULTS, Room, run_row};
use nd_text::byte_digits;
use std::alloc::AllocError;
use std::str;

/// The first words of lines, but for `drop`.
pub(crate) const KINDS: [&str; 6] = ["rs ", "ra ", "ns ", "na ", "redirect ", "other "];

/// The number of lines that begin with each word, and of those with each reason.
#[derive(Clone, Copy)]
pub(crate) struct Counts {
    pub(crate) lines: u64,
    pub(crate) kinds: [u64; 6],
    /// By the reason's number, less 1.
    pub(crate) reasons: [u64; 20],
}

/// Adds one at a place, if there is one.
fn count(numbers: &mut [u64], at: usize) -> bool {
    match numbers.get_mut(at) {
        Some(count) => {
            *count = count.saturating_add(1);
            true
        }
        None => false,
    }
}

impl Counts {
    /// Counts a line. Returns false if it is none of `check`.
    fn take(&mut self, line: &str) -> bool {
        self.lines = self.lines.saturating_add(1);
        if let Some(reason) = line.strip_prefix("drop ") {
            let number = reason.split(' ').next().unwrap_or("").parse::<usize>();
            return match number {
                Ok(number) if number > 0 => count(&mut self.reasons, number - 1),
                _ => false,
            };
        }
        match KINDS.iter().position(|kind| line.starts_with(kind)) {
            Some(kind) => count(&mut self.kinds, kind),
            None => false,
        }
    }
}

/// The line of a frame of which one byte is another one.
#[derive(Clone, Copy)]
enum Foretold {
    /// The byte isn't looked at.
    AsBefore,
    /// The first reason to drop the frame.
    Drop(&'static str),
    /// A packet of this next header that is no message.
    Other(u8),
    /// That depends on the bytes after a shorter payload.
    Nothing,
}

impl Foretold {
    /// `unchanged`: the line of the frame as it is.
    fn is(self, unchanged: &str, line: &str) -> bool {
        match self {
            Foretold::AsBefore => line == unchanged,
            Foretold::Drop(wanted) => line == wanted,
            Foretold::Other(header) => line
                .strip_prefix("other ")
                .is_some_and(|number| number.parse::<u8>().ok() == Some(header)),
            Foretold::Nothing => true,
        }
    }
}

/// By the layouts of RFC 2464, RFC 8200 and RFC 4443 and the order of the reasons: no change of one byte keeps the checksum.
fn foretell(at: usize, before: u8, value: u8, is_icmpv6: bool) -> Foretold {
    match at {
        0..=11 | 15..=17 => Foretold::AsBefore,
        12 | 13 => Foretold::Drop("drop 2 NotIpv6"),
        14 if value / 16 == 6 => Foretold::AsBefore,
        14 => Foretold::Drop("drop 4 Version"),
        18 | 19 if value > before => Foretold::Drop("drop 5 PayloadShort"),
        18 | 19 => Foretold::Nothing,
        20 => Foretold::Other(value),
        _ if !is_icmpv6 => Foretold::AsBefore,
        21 => Foretold::Drop("drop 10 HopLimit"),
        54 if value < 133 || value > 137 => Foretold::Other(58),
        _ => Foretold::Drop("drop 11 Sum"),
    }
}

/// Returns the digits of the byte at a place.
fn byte_at(digits: &[u8], at: usize) -> &[u8] {
    let begin = at.saturating_mul(2);
    digits
        .get(begin..begin.saturating_add(2))
        .unwrap_or_default()
}

/// A line for the frame cut to each length, the whole one too.
fn push_cuts(script: &mut Vec<u8>, digits: &[u8]) -> Result<(), AllocError> {
    for length in (0..digits.len().saturating_add(1)).step_by(2) {
        script.extend_from_slice(digits.get(..length).unwrap_or_default())?;
        script.push(b'\n')?;
    }
    Ok(())
}

/// A line for the frame with the byte at this place at another value.
fn push_change(
    script: &mut Vec<u8>,
    digits: &[u8],
    at: usize,
    byte: &[u8],
) -> Result<(), AllocError> {
    let begin = at.saturating_mul(2);
    script.extend_from_slice(digits.get(..begin).unwrap_or_default())?;
    script.extend_from_slice(byte)?;
    script.extend_from_slice(digits.get(begin.saturating_add(2)..).unwrap_or_default())?;
    script.push(b'\n')?;
    Ok(())
}

/// A frame that is cut and changed.
#[derive(Clone, Copy)]
pub(crate) struct Changed<'a> {
    pub(crate) room: Room<'a>,
    /// A row with the words of `check`.
    pub(crate) check: &'a Row,
    pub(crate) digits: &'a [u8],
}

impl Changed<'_> {
    /// Runs `check` on the frame cut to each length, and counts the lines. Returns the line of the whole frame, or None if a line is none of `check`, or
    /// if there are more or fewer lines than frames.
    fn cut(self, counts: &mut Counts) -> Result<Option<String>, AllocError> {
        let mut script = Vec::new(self.room.alloc);
        push_cuts(&mut script, self.digits)?;
        let ended = run_row(self.room, self.check, &script, NO_FAULTS)?;
        let text = str::from_utf8(&ended.text).unwrap_or("");
        let mut is_right = ended.done == Ok(());
        let mut lines = 0usize;
        for line in text.lines() {
            lines = lines.saturating_add(1);
            is_right &= counts.take(line);
        }
        if !is_right || lines != (self.digits.len() / 2).saturating_add(1) {
            return Ok(None);
        }
        let whole = text.lines().last().unwrap_or("");
        Ok(Some(String::from_str(self.room.alloc, whole)?))
    }

    /// Runs `check` on the frame with the byte at this place at each other value, and counts the lines. Returns false if a line isn't what is foretold, or
    /// if there are more or fewer lines than frames. `unchanged`: the line of the frame as it is.
    fn change(self, at: usize, unchanged: &str, counts: &mut Counts) -> Result<bool, AllocError> {
        let old = byte_at(self.digits, at);
        let is_icmpv6 = byte_at(self.digits, 20) == b"3a".as_slice();
        let mut script = Vec::new(self.room.alloc);
        let mut before = 0u8;
        for value in 0..=255u8 {
            let byte = byte_digits(value);
            if byte.as_slice() == old {
                before = value;
            } else {
                push_change(&mut script, self.digits, at, &byte)?;
            }
        }
        let ended = run_row(self.room, self.check, &script, NO_FAULTS)?;
        let mut lines = str::from_utf8(&ended.text).unwrap_or("").lines();
        let mut is_right = ended.done == Ok(());
        for value in 0..=255u8 {
            if value != before {
                let line = lines.next().unwrap_or("");
                let foretold = foretell(at, before, value, is_icmpv6);
                is_right &= counts.take(line) && foretold.is(unchanged, line);
            }
        }
        Ok(is_right && lines.next().is_none())
    }

    /// Cuts the frame to each length, and sets each byte to each other value. Returns false if a line isn't what it has to be.
    pub(crate) fn is_heard(self, counts: &mut Counts) -> Result<bool, AllocError> {
        let Some(unchanged) = self.cut(counts)? else {
            return Ok(false);
        };
        let mut is_right = true;
        for at in 0..self.digits.len() / 2 {
            is_right &= self.change(at, &unchanged, counts)?;
        }
        Ok(is_right)
    }
}
