//! Prefixes read from text.

ghost use Rattle.std.specs.Prelude.{◌≡◌, ◌↔◌, ◌+◌, ◌<◌, ◌≤◌, ℕ, IsTrue, Some, length, slice_index, MatchOption, IfSome, IfOk, IsOkAnd, decimal};
ghost use Rattle.nd_addr.specs.Prefix.{PrefixValue};
ghost use Rattle.nd_addr.specs.Spelling.{SpellsPrefix};

use crate::addr::Addr;
use crate::parse::TextFault;
use crate::prefix::Prefix;
use itoa::Buffer;

/// Returns the place of the last slash.
fn find_slash(text: &[u8]) -> Option<usize>
    ensures place { MatchOption result ((k : ℕ) → k < length text.now → slice_index text.now k ≡ 47 → ⊥) (λ at. (at < length text.now) × (slice_index text.now at ≡ 47)) }
    ensures last { IfSome result (λ at. (k : ℕ) → at < k → k < length text.now → slice_index text.now k ≡ 47 → ⊥) }
{
    for i in (0..text.len()).rev() {
        if text[i] == b'/' {
            return Some(i);
        }
    }
    None
}

/// Returns the number in some decimal digits, if it is below 256. For other texts the result is not specified.
fn number_in(text: &[u8]) -> Option<u8>
    ensures { (n : ℕ) → n < 256 → text.now ≡ decimal n → result ≡ Some n }
{
    match std::str::from_utf8(text) {
        Ok(digits) => match digits.parse::<u8>() {
            Ok(number) => Some(number),
            Err(_) => None,
        },
        Err(_) => None,
    }
}

/// Returns true if a text is what is written for a number: its decimal digits with no leading zero.
fn is_decimal(text: &[u8], number: u8) -> bool
    ensures { IsTrue result ↔ (text.now ≡ decimal number) }
{
    Buffer::new().format(number).as_bytes() == text
}

/// Returns the prefix length that a text spells: 0 to 128, in decimal digits with no leading zero.
fn read_length(text: &[u8]) -> Option<u8>
    ensures found { IfSome result (λ n. (n ≤ 128) × (text.now ≡ decimal n)) }
    ensures only { (n : ℕ) → n ≤ 128 → text.now ≡ decimal n → result ≡ Some n }
{
    let number = number_in(text)?;
    (number <= 128 && is_decimal(text, number)).then_some(number)
}

impl Prefix {
    /// Returns the prefix that a text spells: an address as `Addr::parse` reads it, a slash, and a length of 0 to 128 in decimal digits with no
    /// leading zero (RFC 4291, section 2.3). Bits past the length are set to zero. Any other text is malformed.
    pub fn parse(text: &[u8]) -> Result<Prefix, TextFault>
        ensures found { IfOk result (λ prefix. SpellsPrefix text.now prefix) }
        ensures only { (prefix : PrefixValue) → SpellsPrefix text.now prefix → IsOkAnd result (λ found. found ≡ prefix) }
    {
        let Some(at) = find_slash(text) else {
            return Err(TextFault::Malformed);
        };
        let address = match Addr::parse(&text[..at]) {
            Ok(address) => address,
            Err(fault) => return Err(fault),
        };
        let Some(length) = read_length(&text[at + 1..]) else {
            return Err(TextFault::Malformed);
        };
        let _bytes = address.as_bytes();
        match Prefix::new(address, length) {
            Some(prefix) => Ok(prefix),
            None => Err(TextFault::Malformed),
        }
    }
}
