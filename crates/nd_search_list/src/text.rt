ghost use Rattle.std.specs.Prelude.{◌≡◌, ◌+◌, ◌++◌, ◌<◌, ◌≤◌, IsOk, OnErr, OnOk, length, string_bytes, string_len};
ghost use Rattle.std.specs.String.{string_capacity};
ghost use Rattle.std.specs.List.{AllByRecursion};
ghost use Rattle.nd_search_list.specs.Name.{lowered};
ghost use Rattle.nd_search_list.specs.NameRef.{name_of};
ghost use Rattle.nd_search_list.specs.Text.{IsText, text_from, name_text};

use crate::name_ref::NameRef;
use std::alloc::{AllocError, Allocator};

impl NameRef<'_> {
    /// Appends its labels in small letters with dots between them (RFC 1035, section 2.3.1). Returns an error if out of memory; the text is
    /// unchanged then.
    pub fn write_text<A: Allocator>(&self, text: &mut String<A>) -> Result<(), AllocError>
        ensures written { OnOk result (string_bytes text.new ≡ string_bytes text.old ++ name_text (name_of self.now)) }
        ensures kept { OnErr result (string_bytes text.new ≡ string_bytes text.old) }
        ensures rules { IsText (name_of self.now) (name_text (name_of self.now)) }
    {
        match self.as_bytes() {
            [first, rest @ ..] => {
                text.reserve(rest.len())?;
                push_from(text, *first, rest)
            }
            [] => Ok(()),
        }
    }
}

/// Appends the rest of the text, where `first` bytes of the current label are left. There is room for it, so this never fails.
fn push_from<A: Allocator>(text: &mut String<A>, first: u8, bytes: &[u8]) -> Result<(), AllocError>
    requires low { AllByRecursion (λ byte. byte < 128) bytes.now }
    requires room { string_len text.old + length bytes.now ≤ string_capacity text.old }
    ensures succeeds { IsOk result }
    ensures written { OnOk result (string_bytes text.new ≡ string_bytes text.old ++ text_from first (lowered bytes.now)) }
{
    let mut left = first;
    let mut rest = bytes;
    while let [byte, after @ ..] = rest {
        // A length byte is below all letters.
        let byte = byte.to_ascii_lowercase();
        if left == 0 {
            text.push('.')?;
            left = byte;
        } else {
            text.push(char::from(byte))?;
            left -= 1;
        }
        rest = after;
    }
    Ok(())
}
