//! One run.

use crate::failing::{FailingReader, FailingWriter};
use crate::row::Row;
use nd_lines::tool_fault::ToolFault;
use nd_link::{FailingWire, MemoryWire};
use nd_refusing::Refusing;
use ndpctl_args::{Asked, read_words};
use ndpctl_link::{LinkScript, run_link};
use ndpctl_tool::Ending;
use ndpctl_tool::run::run;
use std::alloc::{AllocError, Global};

pub(crate) type Heap = Refusing<Global>;

/// What runs share.
#[derive(Clone, Copy)]
pub(crate) struct Room<'a> {
    pub(crate) net: &'a HostRuntime,
    pub(crate) alloc: Global,
    /// Where runs take their memory. The test itself takes none there.
    pub(crate) heap: &'a Heap,
}

/// What fails: the calls of these numbers, counted from 0.
#[derive(Clone, Copy)]
pub(crate) struct Faults {
    /// The most bytes that a read gives.
    pub(crate) piece: usize,
    pub(crate) read: u64,
    pub(crate) write: u64,
    pub(crate) carry: u64,
    /// The most bytes that a write takes.
    pub(crate) most: usize,
}

/// Nothing fails. A read gives all of a script, and a write takes all bytes.
pub(crate) const NO_FAULTS: Faults = Faults {
    piece: usize::MAX,
    read: u64::MAX,
    write: u64::MAX,
    carry: u64::MAX,
    most: usize::MAX,
};

/// What a run wrote, and how it ended.
#[derive(Drop)]
pub(crate) struct Ended {
    pub(crate) text: Vec<u8>,
    pub(crate) done: Result<(), ToolFault>,
}

/// Runs a script with the words of a row. The error is that the words are refused, or that there is no memory for the test itself.
pub(crate) fn run_row(
    room: Room<'_>,
    row: &Row,
    script: &[u8],
    faults: Faults,
) -> Result<Ended, AllocError> {
    let Ok(asked) = read_words(room.alloc, row.words.as_slice()) else {
        return Err(AllocError);
    };
    let mut reader = FailingReader::new(script, faults.piece, faults.read);
    let mut writer = FailingWriter::new(room.alloc, faults.most, faults.write);
    let done = match asked {
        Asked::Link(_) if faults.carry != u64::MAX => {
            let wire = FailingWire::new(MemoryWire, faults.carry);
            let mut link = LinkScript::new(room.heap, wire);
            run_link(room.heap, &mut reader, &mut writer, &mut link)
        }
        _ => run(room.net, room.heap, asked, &mut reader, &mut writer),
    };
    Ok(Ended {
        text: writer.bytes,
        done,
    })
}

/// Returns true if a run wrote all of the row's text and ended as the row ends.
pub(crate) fn is_whole(row: &Row, ended: &Ended) -> bool {
    let wanted = match row.malformed {
        Some(line) => Err(ToolFault::Line(line)),
        None => Ok(()),
    };
    ended.done == wanted && ended.text == row.text
}

/// Returns true if a run ended with this fault, this status, and this text on standard error.
pub(crate) fn has_fault(
    alloc: Global,
    ended: &Ended,
    fault: ToolFault,
    status: u8,
    text: &str,
) -> Result<bool, AllocError> {
    let ending = Ending::of_run(ended.done);
    let said = ending.to_string(alloc)?;
    Ok(ended.done == Err(fault) && ending.status() == status && said.as_str() == text)
}
