//! The words of a script that spell bytes.

ghost use Rattle.std.specs.Prelude.{◌≡◌, ◌↔◌, ◌<◌, ◌%◌, ℕ, List, length, IsTrue, IfSome, IfOk, None, Ok};
ghost use Rattle.std.specs.List.{AllPass};
ghost use Rattle.std.specs.Option.{IsSomeAnd};
ghost use Rattle.hex.specs.Hex.{is_hex_digit};
ghost use Rattle.ndpctl_run.specs.Bytes.{IsBytesWord};

use std::alloc::{AllocError, Allocator};

/// Returns true if a word is an even number of hexadecimal digits, in either case, and not empty.
fn is_hexadecimal(word: &[u8]) -> bool
    ensures { IsTrue result ↔ ((0 < length word.now) × (length word.now % 2 ≡ 0) × AllPass is_hex_digit word.now) }
{
    !word.is_empty() && word.len() % 2 == 0 && are_digits(word)
}

/// Returns true if all bytes of a word are hexadecimal digits, in either case.
fn are_digits(word: &[u8]) -> bool
    ensures { IsTrue result ↔ AllPass is_hex_digit word.now }
{
    nd_text::are_digits(word)
}

/// Returns the bytes that a word spells: `-` spells none, and otherwise each byte is two hexadecimal digits, in either case. No other word spells
/// bytes, and such a word takes no memory. Returns an error if out of memory.
pub(crate) fn read_bytes<A: Allocator + Clone>(
    alloc: &A,
    word: &[u8],
) -> Result<Option<Vec<u8, A>>, AllocError>
    ensures found { IfOk result (λ read. IfSome read (λ bytes. IsBytesWord word.now bytes.items)) }
    ensures only { (bytes : List ℕ) → IsBytesWord word.now bytes → IfOk result (λ read. IsSomeAnd read (λ found. found.items ≡ bytes)) }
    ensures malformed { ((bytes : List ℕ) → IsBytesWord word.now bytes → ⊥) → result ≡ Ok None }
{
    if word == b"-".as_slice() {
        return Ok(Some(Vec::new(alloc.clone()?)));
    }
    if !is_hexadecimal(word) {
        return Ok(None);
    }
    match nd_text::decode_hex(alloc.clone()?, word) {
        Ok(bytes) => Ok(Some(bytes)),
        Err(_) => Err(AllocError),
    }
}
