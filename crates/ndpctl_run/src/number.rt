//! Numbers in decimal digits, with no sign and no leading zero.

ghost use Rattle.std.specs.Prelude.{◌≡◌, ◌↔◌, ◌<◌, ◌^◌, ◌++◌, List, ℕ, IsTrue, Some, IfSome, decimal};
ghost use Rattle.std.specs.Option.{IsSomeAnd};
ghost use Rattle.ndpctl_run.specs.Number.{IsCountWord, IsNumberOr, IsNumberWord};
ghost use Rattle.ndpctl_run.specs.Words.{Parts};

use crate::words::split_word;
use itoa::Buffer;

/// Returns the number in some decimal digits, if it is below 2^64. For other texts the result is not specified.
fn number_in(text: &[u8]) -> Option<u64>
    ensures { (n : ℕ) → n < 2 ^ 64 → text.now ≡ decimal n → result ≡ Some n }
{
    match std::str::from_utf8(text) {
        Ok(digits) => match digits.parse::<u64>() {
            Ok(number) => Some(number),
            Err(_) => None,
        },
        Err(_) => None,
    }
}

/// Returns true if a text is what is written for a number: its decimal digits with no leading zero.
fn is_decimal(text: &[u8], number: u64) -> bool
    ensures { IsTrue result ↔ (text.now ≡ decimal number) }
{
    Buffer::new().format(number).as_bytes() == text
}

/// Returns the number below 2^64 that a text spells in decimal digits, with no sign and no leading zero.
pub fn read_number(text: &[u8]) -> Option<u64>
    ensures found { IfSome result (λ n. text.now ≡ decimal n) }
    ensures only { (n : ℕ) → n < 2 ^ 64 → text.now ≡ decimal n → result ≡ Some n }
{
    let number = number_in(text)?;
    is_decimal(text, number).then_some(number)
}

/// Returns the number from 1 to `most` that a word spells in decimal digits, with no sign and no leading zero.
pub fn read_count(word: &[u8], most: u64) -> Option<u64>
    ensures found { IfSome result (λ n. IsCountWord most word.now n) }
    ensures only { (n : ℕ) → IsCountWord most word.now n → result ≡ Some n }
{
    let number = read_number(word)?;
    if number < 1 || number > most {
        return None;
    }
    Some(number)
}

/// Returns the number below 2^64 that the first word of a text spells, and what follows its space.
pub fn split_number(text: &[u8]) -> Option<(u64, &[u8])>
    ensures found { IfSome result (λ parts. Parts text.now (λ word. IsNumberWord (2 ^ 64) word parts.0) (λ rest. rest ≡ parts.1.now)) }
    ensures only { (number : ℕ) (rest : List ℕ) → Parts text.now (λ word. IsNumberWord (2 ^ 64) word number) (λ r. r ≡ rest)
        → IsSomeAnd result (λ parts. (parts.0 ≡ number) × (parts.1.now ≡ rest)) }
{
    let (word, rest) = split_word(text)?;
    let number = read_number(word)?;
    Some((number, rest))
}

/// Returns the number below 2^8 that a word spells in decimal digits, with no sign and no leading zero.
pub(crate) fn read_byte(word: &[u8]) -> Option<u8>
    ensures found { IfSome result (λ n. IsNumberWord (2 ^ 8) word.now n) }
    ensures only { (n : ℕ) → IsNumberWord (2 ^ 8) word.now n → result ≡ Some n }
{
    let number = read_number(word)?;
    if number > u8::MAX as u64 {
        return None;
    }
    Some(number as u8)
}

/// Returns the number below 2^16 that a word spells in decimal digits, with no sign and no leading zero.
pub(crate) fn read_u16(word: &[u8]) -> Option<u16>
    ensures found { IfSome result (λ n. IsNumberWord (2 ^ 16) word.now n) }
    ensures only { (n : ℕ) → IsNumberWord (2 ^ 16) word.now n → result ≡ Some n }
{
    let number = read_number(word)?;
    if number > u16::MAX as u64 {
        return None;
    }
    Some(number as u16)
}

/// Returns the number below 2^32 that a word spells in decimal digits, with no sign and no leading zero.
pub(crate) fn read_u32(word: &[u8]) -> Option<u32>
    ensures found { IfSome result (λ n. IsNumberWord (2 ^ 32) word.now n) }
    ensures only { (n : ℕ) → IsNumberWord (2 ^ 32) word.now n → result ≡ Some n }
{
    let number = read_number(word)?;
    if number > u32::MAX as u64 {
        return None;
    }
    Some(number as u32)
}

/// Returns the number below 2^16 that a word spells; `-` spells `default`.
pub(crate) fn read_u16_or(word: &[u8], default: u16) -> Option<u16>
    ensures found { IfSome result (λ n. IsNumberOr default (2 ^ 16) word.now n) }
    ensures only { (n : ℕ) → IsNumberOr default (2 ^ 16) word.now n → result ≡ Some n }
{
    if word == b"-".as_slice() {
        return Some(default);
    }
    read_u16(word)
}

/// Returns the number below 2^32 that a word spells; `-` spells `default`.
pub(crate) fn read_u32_or(word: &[u8], default: u32) -> Option<u32>
    ensures found { IfSome result (λ n. IsNumberOr default (2 ^ 32) word.now n) }
    ensures only { (n : ℕ) → IsNumberOr default (2 ^ 32) word.now n → result ≡ Some n }
{
    if word == b"-".as_slice() {
        return Some(default);
    }
    read_u32(word)
}

/// Returns the number below 2^64 that a text spells after a label.
pub(crate) fn read_labelled(text: &[u8], label: &[u8]) -> Option<u64>
    ensures found { IfSome result (λ n. text.now ≡ label.now ++ decimal n) }
    ensures only { (n : ℕ) → n < 2 ^ 64 → text.now ≡ label.now ++ decimal n → result ≡ Some n }
{
    read_number(text.strip_prefix(label)?)
}
