ghost use Rattle.std.specs.Prelude.{◌≡◌, ◌++◌, OnOk, string_bytes, decimal};
ghost use Rattle.ndpctl_check.specs.Words.{letter_text, three_flags_text};

use itoa::Buffer;
use std::alloc::{AllocError, Allocator};

/// Writes a word, and a number after it.
pub(crate) fn write_number<A: Allocator>(
    text: &mut String<A>,
    word: &str,
    number: u32,
) -> Result<(), AllocError>
    ensures { OnOk result (string_bytes text.new ≡ string_bytes text.old ++ word.now ++ decimal number) }
{
    text.push_str(word)?;
    text.push_str(Buffer::new().format(number))
}

/// Writes a word, and a count after it.
pub(crate) fn write_count<A: Allocator>(
    text: &mut String<A>,
    word: &str,
    count: usize,
) -> Result<(), AllocError>
    ensures { OnOk result (string_bytes text.new ≡ string_bytes text.old ++ word.now ++ decimal count) }
{
    text.push_str(word)?;
    text.push_str(Buffer::new().format(count))
}

/// Writes the letter of a flag, or nothing.
fn write_letter<A: Allocator>(
    text: &mut String<A>,
    flag: bool,
    letter: &str,
) -> Result<(), AllocError>
    ensures { OnOk result (string_bytes text.new ≡ string_bytes text.old ++ letter_text flag letter.now) }
{
    if flag {
        text.push_str(letter)?;
    }
    Ok(())
}

/// Writes the letters `r`, `s` and `o` of three flags, or `-` for none.
pub(crate) fn write_three_flags<A: Allocator>(
    text: &mut String<A>,
    router: bool,
    solicited: bool,
    override_flag: bool,
) -> Result<(), AllocError>
    ensures { OnOk result (string_bytes text.new ≡ string_bytes text.old ++ three_flags_text router solicited override_flag) }
{
    if !router && !solicited && !override_flag {
        return text.push_str("-");
    }
    write_letter(text, router, "r")?;
    write_letter(text, solicited, "s")?;
    write_letter(text, override_flag, "o")
}
