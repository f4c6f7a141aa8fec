//! Hexadecimal digits, 32 at a time.

ghost use Rattle.std.specs.Prelude.{◌≡◌, ◌↔◌, ◌≤◌, ◌<◌, ◌+◌, ◌*◌, ◌%◌, ℕ, length, map, slice_index, IsTrue, Ok};
ghost use Rattle.hex.specs.Hex.{decode_of};
ghost use Rattle.nd_text.specs.HexDigits.{value_or_none, AreValues, SpellsFirst};

use std::simd::prelude::*;

/// The number of bytes that one step writes. It reads twice as many digits.
const STEP_BYTES: usize = 16;

/// Returns the values of digits in either case, and 255 for each character that is no digit.
pub(crate) fn values_of(digits: u8x32) -> u8x32
    ensures { result ≡ map value_or_none digits }
{
    let decimal = digits - u8x32::splat(b'0');
    let letter = (digits | u8x32::splat(0x20)) - u8x32::splat(b'a');
    let of_letter = letter
        .simd_le(u8x32::splat(5))
        .select(letter + u8x32::splat(10), u8x32::splat(255));
    decimal.simd_le(u8x32::splat(9)).select(decimal, of_letter)
}

/// Returns true if all are values of digits.
pub(crate) fn are_values(values: u8x32) -> bool
    ensures { IsTrue result ↔ AreValues values }
{
    values.simd_ge(u8x32::splat(0x80)).to_bitmask() == 0
}

/// Returns the bytes of pairs of values, the higher one first.
fn paired(values: u8x32) -> u8x16
    ensures len { length result ≡ 16 }
    ensures lanes { (i : ℕ) → i < 16 → slice_index result i ≡ (slice_index values (2 * i) * 16 + slice_index values (2 * i + 1)) % 256 }
{
    let high = values.swizzle::<16>([0, 2, 4, 6, 8, 10, 12, 14, 16, 18, 20, 22, 24, 26, 28, 30]);
    let low = values.swizzle::<16>([1, 3, 5, 7, 9, 11, 13, 15, 17, 19, 21, 23, 25, 27, 29, 31]);
    high * u8x16::splat(16) + low
}

/// Decodes one step of digits to the bytes from a place on; all bytes before that are decoded. Returns true if they are digits.
fn decode_step(digits: &[u8], bytes: &mut [u8], at: usize) -> bool
    requires pairs { length digits.now ≡ 2 * length bytes.old }
    requires room { at + 16 ≤ length bytes.old }
    ensures len { length bytes.new ≡ length bytes.old }
    ensures decoded { IsTrue result → SpellsFirst at digits.now bytes.old → SpellsFirst (at + 16) digits.now bytes.new }
{
    let values = values_of(u8x32::from_slice(&digits[2 * at..]));
    if !are_values(values) {
        return false;
    }
    paired(values).copy_to_slice(&mut bytes[at..]);
    true
}

/// Decodes digits to half as many bytes. Returns false if there is a character that is no digit, or less than one step of them; the bytes are
/// unspecified then.
pub(crate) fn decode_quickly(digits: &[u8], bytes: &mut [u8]) -> bool
    requires { length digits.now ≡ 2 * length bytes.old }
    ensures { IsTrue result → decode_of digits.now ≡ Ok bytes.new }
{
    if bytes.len() < STEP_BYTES {
        return false;
    }
    // The last step ends with the digits, and may read some of them again.
    let last = bytes.len() - STEP_BYTES;
    let mut at = 0;
    while at < last {
        if !decode_step(digits, bytes, at) {
            return false;
        }
        at += STEP_BYTES;
    }
    decode_step(digits, bytes, last)
}
