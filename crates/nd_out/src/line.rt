ghost use Rattle.std.specs.Prelude.{◌≡◌, ◌++◌, OnOk, codes, string_bytes};
ghost use Rattle.std.specs.Fmt.{decimal};
ghost use Rattle.nd_addr.specs.Number.{number_of};
ghost use Rattle.nd_chronicle.specs.Shown.{key_text};
ghost use Rattle.nd_chronicle.specs.Told.{line_at};
ghost use Rattle.nd_out.specs.NodeLine.{front};

use itoa::Buffer;
use nd_addr::Addr;
use std::alloc::{AllocError, Allocator};

/// Writes a number. Returns an error if out of memory.
pub(crate) fn write_number<A: Allocator>(
    text: &mut String<A>,
    number: u64,
) -> Result<(), AllocError>
    ensures { OnOk result (string_bytes text.new ≡ string_bytes text.old ++ decimal number) }
{
    text.push_str(Buffer::new().format(number))
}

/// Writes a moment, and a space after it.
pub(crate) fn write_moment<A: Allocator>(text: &mut String<A>, at: u64) -> Result<(), AllocError>
    ensures { OnOk result (string_bytes text.new ≡ string_bytes text.old ++ decimal at ++ codes " ") }
{
    write_number(text, at)?;
    text.push_str(" ")
}

/// Writes the beginning of a line: the number of a node of a link, and nothing for a node without a link.
pub(crate) fn write_front<A: Allocator>(
    text: &mut String<A>,
    node: Option<usize>,
) -> Result<(), AllocError>
    ensures { OnOk result (string_bytes text.new ≡ string_bytes text.old ++ front node) }
{
    let Some(node) = node else {
        return Ok(());
    };
    text.push_str("n")?;
    write_number(text, node as u64)?;
    text.push_str(" ")
}

/// Writes an address.
pub(crate) fn write_address<A: Allocator>(
    text: &mut String<A>,
    addr: Addr,
) -> Result<(), AllocError>
    ensures { OnOk result (string_bytes text.new ≡ string_bytes text.old ++ key_text (number_of addr.0)) }
{
    let _bytes = addr.as_bytes();
    addr.write_text(text)
}

/// Writes a line: its moment, its text and a line feed.
pub(crate) fn write_line<A: Allocator>(
    text: &mut String<A>,
    at: u64,
    told: &str,
) -> Result<(), AllocError>
    ensures { OnOk result (string_bytes text.new ≡ string_bytes text.old ++ line_at at told.now) }
{
    write_moment(text, at)?;
    text.push_str(told)?;
    text.push_str("\n")
}
