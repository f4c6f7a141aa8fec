//! Digits at the end of a text.

ghost use Rattle.std.specs.Prelude.{◌≡◌, ◌<◌, ◌≤◌, ◌*◌, [], ◌∷◌, ◌++◌, length, OnOk, string_bytes, false, IsAscii};
ghost use Rattle.std.specs.Fmt.{digits, digit_glyph};
ghost use Rattle.nd_text.specs.Digits.{byte_text, digit_at, hex_text};

use std::alloc::{AllocError, Allocator};

/// Returns the digit of a number below 16, in lower case.
fn hex_digit(n: u8) -> u8
    requires { n < 16 }
    ensures { result ≡ digit_glyph false n }
{
    if n < 10 { b'0' + n } else { b'a' - 10 + n }
}

/// Writes the digit of a number below 16.
fn push_digit<A: Allocator>(text: &mut String<A>, n: u16) -> Result<(), AllocError>
    requires { n < 16 }
    ensures { OnOk result (string_bytes text.new ≡ string_bytes text.old ++ digit_glyph false n ∷ []) }
{
    text.push(char::from(hex_digit(n as u8)))
}

/// Writes the digit of a number at a place, 16, 256 or 4096, unless it is a leading zero.
fn push_digit_at<A: Allocator>(
    text: &mut String<A>,
    group: u16,
    place: u16,
) -> Result<(), AllocError>
    requires { 0 < place }
    ensures { OnOk result (string_bytes text.new ≡ string_bytes text.old ++ digit_at group place) }
{
    if group >= place {
        push_digit(text, group / place % 16)?;
    }
    Ok(())
}

/// Writes a group of an address in lower case, without leading zeros (RFC 5952, sections 4.1 and 4.3).
pub(crate) fn push_group<A: Allocator>(text: &mut String<A>, group: u16) -> Result<(), AllocError>
    ensures { OnOk result (string_bytes text.new ≡ string_bytes text.old ++ digits 16 false group) }
{
    push_digit_at(text, group, 0x1000)?;
    push_digit_at(text, group, 0x100)?;
    push_digit_at(text, group, 0x10)?;
    push_digit(text, group % 16)?;
    Ok(())
}

/// Appends a byte as two hexadecimal digits in lower case. Returns an error if out of memory.
pub fn push_byte<A: Allocator>(text: &mut String<A>, byte: u8) -> Result<(), AllocError>
    ensures { OnOk result (string_bytes text.new ≡ string_bytes text.old ++ byte_text byte) }
{
    let byte = byte as u16;
    push_digit(text, byte / 16)?;
    push_digit(text, byte % 16)?;
    Ok(())
}

/// Returns the two hexadecimal digits of a byte, in lower case.
pub fn byte_digits(byte: u8) -> [u8; 2]
    ensures { result ≡ byte_text byte }
{
    [hex_digit(byte / 16), hex_digit(byte % 16)]
}

/// Appends ASCII characters as one piece. Returns an error if out of memory.
pub fn push_ascii<A: Allocator>(text: &mut String<A>, characters: &[u8]) -> Result<(), AllocError>
    requires { IsAscii characters.now }
    ensures { OnOk result (string_bytes text.new ≡ string_bytes text.old ++ characters.now) }
{
    match std::str::from_utf8(characters) {
        Ok(piece) => text.push_str(piece),
        Err(_) => unreachable!(),
    }
}

/// The most bytes that are written as one piece (our choice).
const PIECE: usize = 64;

/// Writes a few bytes as one piece.
fn push_piece<A: Allocator>(text: &mut String<A>, piece: &[u8]) -> Result<(), AllocError>
    requires { length piece.now ≤ 64 }
    ensures { OnOk result (string_bytes text.new ≡ string_bytes text.old ++ hex_text piece.now) }
{
    let mut room = [0; 2 * PIECE];
    let digits = &mut room[..2 * piece.len()];
    match hex::encode_to_slice(piece, digits) {
        Ok(()) => push_ascii(text, digits),
        Err(_) => unreachable!(),
    }
}

/// Appends bytes as two hexadecimal digits each, in lower case. Returns an error if out of memory.
pub fn write_hex<A: Allocator>(text: &mut String<A>, bytes: &[u8]) -> Result<(), AllocError>
    ensures { OnOk result (string_bytes text.new ≡ string_bytes text.old ++ hex_text bytes.now) }
{
    let mut rest = bytes;
    while !rest.is_empty() {
        let (piece, after) = rest.split_at(rest.len().min(PIECE));
        push_piece(text, piece)?;
        rest = after;
    }
    Ok(())
}
