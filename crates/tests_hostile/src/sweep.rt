//! The sweeps over one row: each place at which something can fail, in turn. Each returns how often it did, or None if a run ended otherwise than it
//! has to.

use crate::row::Row;
use crate::run::{Ended, Faults, NO_FAULTS, Room, has_fault, is_whole, run_row};
use nd_lines::tool_fault::ToolFault;
use std::alloc::AllocError;

/// More than there are places in any row.
const MOST: u64 = 1 << 20;

/// The number of requests for memory that were refused, and of those with which the run wrote its whole text all the same.
#[derive(Clone, Copy)]
pub(crate) struct Refused {
    pub(crate) requests: u64,
    pub(crate) without_effect: u64,
}

/// Each request is refused in turn: the run is out of memory, and wrote the answers to all lines before the one at which it was, and perhaps parts of the
/// answer to that one; or the refused request was for a next hop to remember, and the run writes its whole text.
pub(crate) fn refuse_each(room: Room<'_>, row: &Row) -> Result<Option<Refused>, AllocError> {
    let mut refused = Refused {
        requests: 0,
        without_effect: 0,
    };
    for number in 1..MOST {
        room.heap.refuse(number);
        let ended = run_row(room, row, &row.script, NO_FAULTS)?;
        let was_made = !room.heap.is_waiting();
        room.heap.refuse(0);
        if room.heap.held() != 0 {
            return Ok(None);
        }
        if !was_made {
            return Ok(is_whole(row, &ended).then_some(refused));
        }
        if is_whole(row, &ended) {
            refused.without_effect = refused.without_effect.saturating_add(1);
        } else if !is_out_of_memory(room, row, &ended)? {
            return Ok(None);
        }
        refused.requests = refused.requests.saturating_add(1);
    }
    Ok(None)
}

/// Returns true if the run was out of memory at a line, and had answered all lines before it, and perhaps that one in part.
fn is_out_of_memory(room: Room<'_>, row: &Row, ended: &Ended) -> Result<bool, AllocError> {
    let is_fault = has_fault(
        room.alloc,
        ended,
        ToolFault::Memory,
        3,
        "ndpctl: no memory\n",
    )?;
    Ok(is_fault && row.is_of_first_lines(&ended.text))
}

/// Each read fails in turn, one byte a read: the answers to all lines that were read are written.
pub(crate) fn fail_reads(room: Room<'_>, row: &Row) -> Result<Option<u64>, AllocError> {
    for read in 0..MOST {
        let faults = Faults {
            piece: 1,
            read,
            ..NO_FAULTS
        };
        let ended = run_row(room, row, &row.script, faults)?;
        if is_whole(row, &ended) {
            return Ok(Some(read));
        }
        let (_, length) = row.answered(read as usize);
        let is_fault = has_fault(
            room.alloc,
            &ended,
            ToolFault::Read,
            4,
            "ndpctl: input failed\n",
        )?;
        if !is_fault || row.text.get(..length) != Some(&ended.text[..]) {
            return Ok(None);
        }
    }
    Ok(None)
}

/// Each write fails in turn, one byte a write, or one line a write: the bytes or the lines of the writes before it are written.
pub(crate) fn fail_writes(
    room: Room<'_>,
    row: &Row,
    by_byte: bool,
) -> Result<Option<u64>, AllocError> {
    let (piece, most) = match by_byte {
        true => (usize::MAX, 1),
        false => (1, usize::MAX),
    };
    for write in 0..MOST {
        let faults = Faults {
            piece,
            write,
            most,
            ..NO_FAULTS
        };
        let ended = run_row(room, row, &row.script, faults)?;
        if is_whole(row, &ended) {
            return Ok(Some(write));
        }
        let is_fault = has_fault(
            room.alloc,
            &ended,
            ToolFault::Write,
            4,
            "ndpctl: output failed\n",
        )?;
        let is_written = match by_byte {
            true => ended.text.len() as u64 == write && row.text.starts_with(&ended.text),
            false => row.is_of_first_lines(&ended.text),
        };
        if !is_fault || !is_written {
            return Ok(None);
        }
    }
    Ok(None)
}

/// The wire fails at each frame in turn: the answers to all lines before that one are written.
pub(crate) fn carries(room: Room<'_>, row: &Row) -> Result<Option<u64>, AllocError> {
    for carry in 0..MOST {
        let faults = Faults { carry, ..NO_FAULTS };
        let ended = run_row(room, row, &row.script, faults)?;
        if is_whole(row, &ended) {
            return Ok(Some(carry));
        }
        let is_fault = has_fault(
            room.alloc,
            &ended,
            ToolFault::Wire,
            4,
            "ndpctl: wire failed\n",
        )?;
        if !is_fault || !row.is_of_first_lines(&ended.text) {
            return Ok(None);
        }
    }
    Ok(None)
}

/// The script cut at each byte before its last one: how often what is left of a line is malformed.
pub(crate) fn cuts(room: Room<'_>, row: &Row) -> Result<Option<u64>, AllocError> {
    let mut malformed = 0u64;
    for length in 0..row.script.len() {
        match cut(room, row, length)? {
            Some(true) => malformed = malformed.saturating_add(1),
            Some(false) => {}
            None => return Ok(None),
        }
    }
    Ok(Some(malformed))
}

/// The script cut to this length writes the text of its whole lines, and of the rest what that is with a line feed. Returns whether the rest is
/// malformed.
fn cut(room: Room<'_>, row: &Row, length: usize) -> Result<Option<bool>, AllocError> {
    let (lines, written) = row.answered(length);
    let mut script = Vec::new(room.alloc);
    script.extend_from_slice(row.script.get(..length).unwrap_or_default())?;
    let ended = run_row(room, row, &script, NO_FAULTS)?;
    let whole_lines = row.text.get(..written).unwrap_or_default();
    if script.is_empty() || script.last() == Some(&b'\n') {
        let is_right = ended.done == Ok(()) && ended.text.as_slice() == whole_lines;
        return Ok(is_right.then_some(false));
    }
    script.push(b'\n')?;
    let closed = run_row(room, row, &script, NO_FAULTS)?;
    let is_malformed = ended.done == Err(ToolFault::Line(lines.saturating_add(1)));
    let is_right = match is_malformed {
        true => ended.text.as_slice() == whole_lines,
        false => ended.done == Ok(()) && ended.text.starts_with(whole_lines),
    };
    let is_same = ended.done == closed.done && ended.text == closed.text;
    Ok((is_right && is_same).then_some(is_malformed))
}
