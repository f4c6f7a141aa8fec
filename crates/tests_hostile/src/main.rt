//! What hostile use does to the tool. Each run of the corpus is done with each request for memory refused, with each read, each write and each frame on
//! the wire failing, and cut at each byte; one that is marked `once` is done once, and is `whole` if it has its text and its status. Each frame that the
//! corpus names for it is cut and changed, and `check` says what that is: of a frame of which one byte is another one, what the layouts say.
//!
//! A line of the output counts for one run what was refused or failed, one after the other, and WRONG stands for a run that ended otherwise than it has to:
//! - requests for memory. Without effect are those for a next hop to remember, and for room to write several answers at once;
//! - reads, of one byte each: one for each byte of the script, and one for its end unless a malformed line ends the run;
//! - bytes, of one write each, and writes of the text of one line each;
//! - frames that are carried;
//! - cuts of the script behind which what is left of a line is malformed.
//!
//! All of them but the requests follow from the row. Of the frames the corpus says how many bytes they have, and `bindings/tests/rules.py`, which
//! shares no code with this, how many are heard and dropped (`frames changed` in `bindings/tests/hostile.txt`).
#![tactic(auto)]

mod changed;
mod corpus;
mod failing;
mod frames;
mod row;
mod run;
mod sweep;

use changed::{Changed, Counts, KINDS};
use corpus::Corpus;
use nd_refusing::Refusing;
use row::Row;
use run::{NO_FAULTS, Room, is_whole, run_row};
use std::alloc::{AllocError, Global};
use std::io;
use std::io::Read;
use sweep::{carries, cuts, fail_reads, fail_writes, refuse_each};

/// A line of what the sweeps of a row count, or of a run that is done once. WRONG stands for a run that ended otherwise than it has to.
fn swept(room: Room<'_>, row: &Row) -> Result<String, AllocError> {
    let mut text = String::new(room.alloc);
    let name = row.name.as_str();
    write!(text, "{name}:")?;
    if row.is_once {
        let ended = run_row(room, row, &row.script, NO_FAULTS)?;
        text.push_str(if is_whole(row, &ended) {
            " whole"
        } else {
            " WRONG"
        })?;
        return Ok(text);
    }
    match refuse_each(room, row)? {
        Some(refused) => {
            let requests = refused.requests;
            let without_effect = refused.without_effect;
            write!(
                text,
                " {requests} requests, {without_effect} without effect"
            )?;
        }
        None => text.push_str(" WRONG requests")?,
    }
    push_count(&mut text, fail_reads(room, row)?, "reads")?;
    push_count(&mut text, fail_writes(room, row, true)?, "bytes")?;
    push_count(&mut text, fail_writes(room, row, false)?, "writes")?;
    push_count(&mut text, carries(room, row)?, "frames")?;
    push_count(&mut text, cuts(room, row)?, "malformed cuts")?;
    Ok(text)
}

fn push_count(text: &mut String, count: Option<u64>, what: &str) -> Result<(), AllocError> {
    match count {
        Some(count) => write!(text, ", {count} {what}"),
        None => write!(text, ", WRONG {what}"),
    }
}

/// The lines of what `check` says of all frames that are cut and changed.
fn count_frames(room: Room<'_>, corpus: &Corpus) -> Result<String, AllocError> {
    let mut text = String::new(room.alloc);
    let mut counts = Counts {
        lines: 0,
        kinds: [0; 6],
        reasons: [0; 20],
    };
    for digits in corpus.changed.iter() {
        let is_right = match corpus.rows.first() {
            Some(check) => {
                let frame = Changed {
                    room,
                    check,
                    digits,
                };
                frame.is_heard(&mut counts)?
            }
            None => false,
        };
        if !is_right {
            text.push_str("WRONG lines of check\n")?;
        }
    }
    let lines = counts.lines;
    write!(text, "{lines} frames cut and changed\n  heard")?;
    for (kind, count) in KINDS.iter().zip(counts.kinds) {
        write!(text, " {kind}{count}")?;
    }
    text.push_str("\n  dropped by reason")?;
    for count in counts.reasons {
        write!(text, " {count}")?;
    }
    Ok(text)
}

fn main(rt: HostRuntime) -> io::Result<()> {
    let mut input = String::new(rt.alloc());
    rt.reader().read_to_string(&mut input)?;
    let corpus = Corpus::read(rt.alloc(), &input)?;
    let heap = Refusing::new(rt.alloc());
    let room = Room {
        net: &rt,
        alloc: rt.alloc(),
        heap: &heap,
    };
    for row in corpus.rows.iter() {
        let text = swept(room, row)?;
        println!(rt; "{text}")?;
    }
    let text = count_frames(room, &corpus)?;
    let wrong = corpus.wrong;
    let unused = corpus.unused();
    println!(rt; "{text}")?;
    println!(rt; "{wrong} lines of the corpus are wrong, {unused} frames are not used")
}
