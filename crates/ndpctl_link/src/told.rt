//! The text of what a link reports.

ghost use Rattle.std.specs.Prelude.{◌≡◌, ◌++◌, OnOk, string_bytes};
ghost use Rattle.std.specs.List.{flat_map};
ghost use Rattle.nd_chronicle.specs.Told.{node_lines};
ghost use Rattle.nd_steps.specs.Outputs.{happenings};
ghost use Rattle.nd_link_log.specs.Log.{Refuses};
ghost use Rattle.nd_link_log.specs.Told.{lines_of, refusal_text};
ghost use Rattle.nd_link.specs.Told.{refusal_of, told_lines, told_text};

use itoa::Buffer;
use nd_link::{Refusal, Told};
use nd_out::{Out, write_node_out};
use std::alloc::{AllocError, Allocator};

/// Writes the lines of what happened at a node.
fn write_node_outs<A: Allocator, B: Allocator>(
    text: &mut String<A>,
    node: usize,
    outs: &[(u64, Out<B>)],
) -> Result<(), AllocError>
    ensures { OnOk result (string_bytes text.new ≡ string_bytes text.old ++ flat_map (node_lines node) (happenings outs.now)) }
{
    for (at, out) in outs {
        write_node_out(text, node, *at, out)?;
    }
    Ok(())
}

/// Writes why the link refused an event.
fn write_why<A: Allocator>(text: &mut String<A>, why: Refusal) -> Result<(), AllocError>
    ensures { OnOk result (string_bytes text.new ≡ string_bytes text.old ++ refusal_text (refusal_of why)) }
{
    match why {
        Refusal::TooLate(last) => {
            text.push_str("past ")?;
            text.push_str(Buffer::new().format(last))
        }
        Refusal::NoNode => text.push_str("no-node"),
        Refusal::NoFrame => text.push_str("no-frame"),
        Refusal::Own => text.push_str("own"),
        Refusal::Full => text.push_str("full nodes"),
    }
}

/// Writes the line of an event that the link refused.
fn write_refused<A: Allocator>(
    text: &mut String<A>,
    at: u64,
    why: Refusal,
) -> Result<(), AllocError>
    ensures { OnOk result (string_bytes text.new ≡ string_bytes text.old ++ lines_of (Refuses at (refusal_of why))) }
{
    text.push_str("link ")?;
    text.push_str(Buffer::new().format(at))?;
    text.push_str(" refused ")?;
    write_why(text, why)?;
    text.push_str("\n")
}

/// Writes the lines of one report of the link.
fn write_one<A: Allocator, B: Allocator>(
    text: &mut String<A>,
    told: &Told<B>,
) -> Result<(), AllocError>
    ensures { OnOk result (string_bytes text.new ≡ string_bytes text.old ++ told_lines told.now) }
{
    match told {
        Told::Node(node, outs) => write_node_outs(text, *node, outs),
        Told::Refused(at, why) => write_refused(text, *at, *why),
    }
}

/// Appends the text of what a link reports: the lines of each node begin with its number, and those of the link with `link`. Returns an error if
/// out of memory.
pub fn write_told<A: Allocator, B: Allocator>(
    text: &mut String<A>,
    told: &[Told<B>],
) -> Result<(), AllocError>
    ensures { OnOk result (string_bytes text.new ≡ string_bytes text.old ++ told_text told.now) }
{
    for one in told {
        write_one(text, one)?;
    }
    Ok(())
}
