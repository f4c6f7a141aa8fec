ghost use Rattle.std.specs.Prelude.{◌≡◌, ◌↔◌, ◌<◌, ◌&&◌, IsTrue, length, nat_le, take, true};
ghost use Rattle.std.specs.List.{list_all};
ghost use Rattle.nd_search_list.specs.Label.{is_sign};
ghost use Rattle.nd_search_list.specs.Name.{IsName, lowered};
ghost use Rattle.nd_search_list.specs.Names.{rest_in};
ghost use Rattle.nd_search_list.specs.Reading.{labels_length, name_length, are_small, are_zeros, end_from, lowers_to, is_spelled};

/// The most bytes of a label (RFC 1035, section 2.3.4).
const LONGEST_LABEL: u8 = 63;

/// The most bytes of a name before its zero byte, with which they are 255 (RFC 1035, section 2.3.4).
const LONGEST_NAME: usize = 254;

/// Returns true if a label may have this byte: a letter, a digit or a hyphen (RFC 1035, section 2.3.1), or an underscore (our choice, since names
/// of services have it: RFC 8552). The places of hyphens are not looked at (our choice).
fn is_sign(byte: u8) -> bool
    ensures { result ≡ is_sign byte }
{
    // Most bytes of names are small letters.
    if byte.is_ascii_lowercase() {
        return true;
    }
    byte.is_ascii_alphanumeric() || byte == b'-' || byte == b'_'
}

/// Returns true if a label may have all of these bytes.
fn are_signs(bytes: &[u8]) -> bool
    ensures { result ≡ list_all is_sign bytes.now }
{
    for byte in bytes {
        if !is_sign(*byte) {
            return false;
        }
    }
    true
}

/// Returns true if the bytes begin with a label of this length, after its length byte.
fn begins_with_label(bytes: &[u8], count: usize) -> bool
    ensures { result ≡ (nat_le count (length bytes.now) && list_all is_sign (take count bytes.now)) }
{
    count <= bytes.len() && are_signs(&bytes[..count])
}

/// Returns the number of bytes of the whole labels at the beginning of some bytes, or 0 if a label has another byte or is not complete.
#[tactic(auto, unfolding(crate::specs::Reading::labels_length))]
fn labels_length(bytes: &[u8]) -> usize
    ensures { result ≡ labels_length bytes.now }
{
    let mut before = 0;
    let mut rest = bytes;
    while !rest.is_empty() {
        let byte = rest[0];
        if byte < 1 || byte > LONGEST_LABEL {
            return before;
        }
        let length = usize::from(byte);
        let (_, after) = rest.split_at(1);
        if !begins_with_label(after, length) {
            return 0;
        }
        let (_, behind) = after.split_at(length);
        before += 1 + length;
        rest = behind;
    }
    before
}

/// Returns the number of bytes of the labels of the first name, before its zero byte, or 0 if the bytes begin with none.
#[tactic(auto, unfolding(crate::specs::Reading::name_length))]
pub(crate) fn name_length(bytes: &[u8]) -> usize
    ensures value { result ≡ name_length bytes.now }
    ensures within { 0 < result → result < length bytes.now }
{
    let length = labels_length(bytes);
    if length <= LONGEST_NAME && length < bytes.len() && bytes[length] == 0 {
        length
    } else {
        0
    }
}

/// Returns the same of bytes that are names and then zeros: a name ends at the first zero byte in the place of a label's length.
pub(crate) fn known_length(bytes: &[u8]) -> usize
    requires { are_zeros (rest_in bytes.now) ≡ true }
    ensures value { result ≡ name_length bytes.now }
    ensures within { 0 < result → result < length bytes.now }
{
    end_of_labels(bytes)
}

/// Returns the number of bytes before the first zero byte in the place of a label's length, or of all bytes if there is none. It looks at the
/// lengths of labels alone.
#[tactic(auto, using(crate::proofs::Walk::passed, crate::proofs::Walk::none_ends))]
fn end_of_labels(bytes: &[u8]) -> usize
    ensures { result ≡ end_from 0 bytes.now }
{
    let mut before = 0;
    let mut rest = bytes;
    while !rest.is_empty() {
        let length = usize::from(rest[0]);
        if length == 0 {
            return before;
        }
        let (_, after) = rest.split_at(1);
        if length > after.len() {
            return bytes.len();
        }
        let (_, behind) = after.split_at(length);
        before += 1 + length;
        rest = behind;
    }
    before
}

/// Returns true if there are no capital letters.
fn are_small(bytes: &[u8]) -> bool
    ensures { result ≡ are_small bytes.now }
{
    let mut rest = bytes;
    while let [byte, after @ ..] = rest {
        if byte.is_ascii_uppercase() {
            return false;
        }
        rest = after;
    }
    true
}

/// Returns true if the bytes are the labels of a name and nothing after them.
#[tactic(auto, unfolding(crate::specs::Reading::is_spelled))]
fn is_spelled(bytes: &[u8]) -> bool
    ensures { result ≡ is_spelled bytes.now }
{
    !bytes.is_empty() && bytes.len() <= LONGEST_NAME && labels_length(bytes) == bytes.len()
}

/// Returns true if the bytes are a name in small letters: labels, at least one, each after its length byte, 254 bytes at most (RFC 1035, section
/// 3.1).
pub fn is_name(bytes: &[u8]) -> bool
    ensures { IsTrue result ↔ IsName bytes.now }
{
    is_spelled(bytes) && are_small(bytes)
}

/// Returns true if there are only zeros.
pub(crate) fn are_zeros(bytes: &[u8]) -> bool
    ensures { result ≡ are_zeros bytes.now }
{
    let mut rest = bytes;
    while let [byte, after @ ..] = rest {
        if *byte != 0 {
            return false;
        }
        rest = after;
    }
    true
}

/// Returns true if the bytes in small letters are the others.
pub(crate) fn lowers_to(bytes: &[u8], others: &[u8]) -> bool
    ensures { result ≡ lowers_to bytes.now others.now }
{
    let mut rest = bytes;
    let mut left = others;
    while let [byte, after @ ..] = rest {
        match left {
            [other, behind @ ..] if byte.to_ascii_lowercase() == *other => left = behind,
            _ => return false,
        }
        rest = after;
    }
    left.is_empty()
}

/// Returns true if both are the same in small letters.
pub(crate) fn are_same(bytes: &[u8], others: &[u8]) -> bool
    ensures { result ≡ lowers_to bytes.now (lowered others.now) }
{
    // Mostly both are in small letters.
    bytes == others || are_same_lowered(bytes, others)
}

/// Returns the same, each letter in small.
fn are_same_lowered(bytes: &[u8], others: &[u8]) -> bool
    ensures { result ≡ lowers_to bytes.now (lowered others.now) }
{
    let mut first = bytes;
    let mut second = others;
    while let [byte, after @ ..] = first {
        match second {
            [other, behind @ ..] if byte.to_ascii_lowercase() == other.to_ascii_lowercase() => {
                second = behind;
            }
            _ => return false,
        }
        first = after;
    }
    second.is_empty()
}
