//! The text of a domain name in an array, written without taking memory. The definition is in `specs/NameText.antt`.

ghost use Rattle.std.specs.Prelude.{◌≡◌, ◌++◌, ◌+◌, ◌≤◌, length, drop};
ghost use Rattle.nd_search_list.specs.Name.{IsSpelled, lowered};
ghost use Rattle.nd_search_list.specs.Text.{IsText, name_text, text_from};
ghost use Rattle.nd_c_types.specs.NameText.{padded};

/// The number of bytes for which a text has room.
const TEXT_LENGTH: usize = 256;

/// Returns the text of the name that the bytes spell, with zeros after it (RFC 1035, section 2.3.1).
pub(crate) fn text_of(bytes: &[u8]) -> [u8; 256]
    requires { IsSpelled bytes.now }
    ensures written { result ≡ padded (name_text (lowered bytes.now)) }
    ensures length { length (name_text (lowered bytes.now)) + 1 ≡ length bytes.now }
    ensures rules { IsText (lowered bytes.now) (name_text (lowered bytes.now)) }
{
    let mut text = [0; TEXT_LENGTH];
    if let [first, rest @ ..] = bytes {
        write_from(&mut text, *first, rest);
    }
    text
}

/// Writes the rest of a name's text, of which a label lacks `first` bytes. The bytes after it are unchanged.
fn write_from(text: &mut [u8], first: u8, bytes: &[u8])
    requires { length bytes.now ≤ length text.old }
    ensures { text.new ≡ text_from first (lowered bytes.now) ++ drop (length bytes.now) text.old }
{
    let mut left = first;
    let mut i = 0;
    while i < bytes.len() {
        // A length byte is below all letters.
        let byte = bytes[i].to_ascii_lowercase();
        if left == 0 {
            text[i] = b'.';
            left = byte;
        } else {
            text[i] = byte;
            left -= 1;
        }
        i += 1;
    }
}
