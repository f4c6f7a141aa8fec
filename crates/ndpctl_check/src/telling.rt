ghost use Rattle.std.specs.Prelude.{◌≡◌, ◌++◌, ◌∷◌, [], OnOk, string_bytes};
ghost use Rattle.nd_validity.specs.Hearing.{outcome, hearing_in_some_role};
ghost use Rattle.ndpctl_check.specs.Telling.{told};

use crate::message_text::write_body;
use crate::option_text::write_options;
use crate::words::write_number;
use nd_validity::{Hearing, hear_in_some_role};
use std::alloc::{AllocError, Allocator};

/// Writes what a frame is. Returns an error if out of memory.
pub fn tell<A: Allocator>(text: &mut String<A>, hearing: &Hearing<'_>) -> Result<(), AllocError>
    ensures { OnOk result (string_bytes text.new ≡ string_bytes text.old ++ told (outcome hearing.now)) }
{
    match hearing {
        Hearing::Drop(why) => {
            write_number(text, "drop ", why.number() as u32)?;
            text.push_str(" ")?;
            text.push_str(why.name())
        }
        Hearing::Other(packet) => write_number(text, "other ", packet.header.next_header as u32),
        Hearing::Valid(heard) => {
            write_body(text, heard.source, heard.destination, &heard.message.body)?;
            write_options(text, heard.message.options)
        }
    }
}

/// Writes what a frame is to the role that takes its message, and a line feed. Returns an error if out of memory.
pub fn tell_line<A: Allocator>(text: &mut String<A>, frame: &[u8]) -> Result<(), AllocError>
    ensures { OnOk result (string_bytes text.new ≡ string_bytes text.old ++ (told (hearing_in_some_role frame.now) ++ 10 ∷ [])) }
{
    tell(text, &hear_in_some_role(frame))?;
    text.push_str("\n")
}
