ghost use Rattle.std.specs.Prelude.{◌≡◌, ◌++◌, ◌≤◌, [], OnOk, codes, length, string_bytes, map};
ghost use Rattle.std.specs.List.{flat_map};
ghost use Rattle.nd_addr.specs.Frame.{ethernet_header_length};
ghost use Rattle.nd_addr.specs.Number.{number_of};
ghost use Rattle.nd_text.specs.Digits.{hex_text};
ghost use Rattle.nd_chronicle.specs.Shown.{key_text};
ghost use Rattle.std.specs.Fmt.{decimal};
ghost use Rattle.nd_chronicle.specs.Happening.{Lost, Shown};
ghost use Rattle.nd_chronicle.specs.Told.{line_at, lines_of, node_lines, told_of};
ghost use Rattle.nd_out.specs.NodeLine.{line_from};
ghost use Rattle.nd_out.specs.Out.{happening, loss_of, out_lines, told};

use crate::line::{write_address, write_front, write_line, write_moment, write_number};
use crate::lost::{loss_word, write_way};
use crate::out::{Loss, Out};
use crate::path::{write_path, write_resolved};
use crate::reasons::{write_dropped, write_heard, write_ignored, write_refused};
use crate::reports::Reports;
use nd_addr::Addr;
use nd_text::write_hex;
use std::alloc::{AllocError, Allocator};

/// Writes the line of a frame that was sent.
fn write_sent<A: Allocator>(text: &mut String<A>, at: u64, frame: &[u8]) -> Result<(), AllocError>
    ensures { OnOk result (string_bytes text.new ≡ string_bytes text.old ++ line_at at (codes "tx " ++ hex_text frame.now)) }
{
    write_moment(text, at)?;
    text.push_str("tx ")?;
    write_hex(text, frame)?;
    text.push_str("\n")
}

/// Writes the line of a packet that goes to the upper layer.
fn write_up<A: Allocator>(text: &mut String<A>, at: u64, packet: &[u8]) -> Result<(), AllocError>
    ensures { OnOk result (string_bytes text.new ≡ string_bytes text.old ++ line_at at (codes "up " ++ hex_text packet.now)) }
{
    write_moment(text, at)?;
    text.push_str("up ")?;
    write_hex(text, packet)?;
    text.push_str("\n")
}

/// Writes a line of a word and an address.
fn write_named<A: Allocator>(
    text: &mut String<A>,
    at: u64,
    word: &str,
    addr: Addr,
) -> Result<(), AllocError>
    ensures { OnOk result (string_bytes text.new ≡ string_bytes text.old ++ line_at at (word.now ++ key_text (number_of addr.0))) }
{
    write_moment(text, at)?;
    text.push_str(word)?;
    write_address(text, addr)?;
    text.push_str("\n")
}

/// Writes a line of a word and a number.
fn write_counted<A: Allocator>(
    text: &mut String<A>,
    at: u64,
    word: &str,
    number: u64,
) -> Result<(), AllocError>
    ensures { OnOk result (string_bytes text.new ≡ string_bytes text.old ++ line_at at (word.now ++ decimal number)) }
{
    write_moment(text, at)?;
    text.push_str(word)?;
    write_number(text, number)?;
    text.push_str("\n")
}

/// Writes the lines of rows that were shown, each with the number of the node if it is one of a link.
fn write_each_row<A: Allocator, B: Allocator>(
    text: &mut String<A>,
    node: Option<usize>,
    at: u64,
    rows: &[String<B>],
) -> Result<(), AllocError>
    ensures { OnOk result (string_bytes text.new ≡ string_bytes text.old ++ flat_map (line_from node at) (map string_bytes rows.now)) }
{
    for row in rows {
        write_front(text, node)?;
        write_line(text, at, row.as_str())?;
    }
    Ok(())
}

/// Writes rows that were shown, and how many there are.
fn write_rows<A: Allocator, B: Allocator>(
    text: &mut String<A>,
    node: Option<usize>,
    at: u64,
    rows: &[String<B>],
) -> Result<(), AllocError>
    ensures { OnOk result (string_bytes text.new ≡ string_bytes text.old ++ flat_map (line_from node at) (told_of (Shown (map string_bytes rows.now)))) }
{
    write_each_row(text, node, at, rows)?;
    write_front(text, node)?;
    write_counted(text, at, "end ", rows.len() as u64)
}

/// Writes the line of a packet that was lost.
fn write_lost<A: Allocator>(
    text: &mut String<A>,
    at: u64,
    why: Loss,
    frame: &[u8],
) -> Result<(), AllocError>
    requires { ethernet_header_length ≤ length frame.now }
    ensures { OnOk result (string_bytes text.new ≡ string_bytes text.old ++ lines_of (at, Lost (loss_of why) frame.now)) }
{
    write_moment(text, at)?;
    text.push_str("lost ")?;
    text.push_str(loss_word(why))?;
    text.push_str(" ")?;
    write_way(text, frame)?;
    text.push_str("\n")
}

/// Writes the lines of what happened at a moment.
fn write_out<A: Allocator, B: Allocator>(
    text: &mut String<A>,
    at: u64,
    out: &Out<B>,
) -> Result<(), AllocError>
    ensures { OnOk result (string_bytes text.new ≡ string_bytes text.old ++ out_lines (at, out.now)) }
{
    match out {
        Out::Frame(packet) => write_sent(text, at, packet.as_bytes()),
        Out::Heard { body, .. } => write_heard(text, at, body),
        Out::Dropped(why) => write_dropped(text, at, *why),
        Out::Up(packet) => write_up(text, at, packet),
        Out::Duplicate(addr) => write_named(text, at, "duplicate ", *addr),
        Out::Assigned(addr) => write_named(text, at, "assigned ", *addr),
        Out::EndedAddress(addr) => write_named(text, at, "ended address ", *addr),
        Out::EndedRouter(addr) => write_named(text, at, "ended router ", *addr),
        Out::Failed(addr) => write_named(text, at, "failed ", *addr),
        Out::Lost(why, packet) => write_lost(text, at, *why, packet.as_bytes()),
        Out::Path(destination, way) => write_path(text, at, *destination, *way),
        Out::Resolved(addr, mac) => write_resolved(text, at, *addr, *mac),
        Out::Shown(rows) => write_rows(text, None, at, rows),
        Out::Refused(why) => write_refused(text, at, *why),
        Out::Ignored(limit) => write_ignored(text, at, *limit),
        Out::Past(last) => write_counted(text, at, "refused past ", *last),
    }
}

/// Writes the lines of what happened at a node of a link, at a moment in milliseconds: those of a node without a link, each with the number of the
/// node before it. Returns an error if out of memory.
pub fn write_node_out<A: Allocator, B: Allocator>(
    text: &mut String<A>,
    node: usize,
    at: u64,
    out: &Out<B>,
) -> Result<(), AllocError>
    ensures { OnOk result (string_bytes text.new ≡ string_bytes text.old ++ node_lines node (at, happening out.now)) }
{
    match out {
        Out::Shown(rows) => write_rows(text, Some(node), at, rows),
        _ => {
            write_front(text, Some(node))?;
            write_out(text, at, out)
        }
    }
}

/// Takes all reports, and appends their text, each with its moment in milliseconds: a line each, and for rows that were shown a line each and one for
/// their number. Returns an error if out of memory.
pub fn write_outs<A: Allocator, B: Allocator>(
    text: &mut String<A>,
    outs: &mut Reports<B>,
) -> Result<(), AllocError>
    ensures written { OnOk result (string_bytes text.new ≡ string_bytes text.old ++ told outs.old.items) }
    ensures taken { OnOk result (outs.new.items ≡ []) }
{
    while let Some((at, out)) = outs.pop_oldest() {
        write_out(text, at, &out)?;
    }
    Ok(())
}
