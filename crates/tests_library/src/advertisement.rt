use nd_decode::{MessageRef, decode};

/// The Router Advertisement that some bytes spell. A function of its own, so that no test's proof carries the bytes.
pub(crate) fn advertisement(bytes: &[u8]) -> Option<MessageRef<'_>> {
    if bytes.is_empty() || bytes[0] != 134 {
        return None;
    }
    decode(bytes).ok()
}
