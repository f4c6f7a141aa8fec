//! Recognizes hexadecimal digits, 32 characters at a time.

ghost use Rattle.std.specs.Prelude.{◌≡◌, ◌↔◌, length, IsTrue};
ghost use Rattle.std.specs.List.{AllPass};
ghost use Rattle.hex.specs.Hex.{is_hex_digit};

use crate::hex_steps::{are_values, values_of};
use std::simd::prelude::*;

/// The number of characters that one step reads (our choice).
const STEP: usize = 32;

/// Returns true if the characters of one step are digits.
fn step_is_digits(step: &[u8]) -> bool
    requires { length step.now ≡ 32 }
    ensures { IsTrue result ↔ AllPass is_hex_digit step.now }
{
    are_values(values_of(u8x32::from_slice(step)))
}

/// Returns true if a few characters are digits.
fn few_are_digits(characters: &[u8]) -> bool
    ensures { IsTrue result ↔ AllPass is_hex_digit characters.now }
{
    characters.iter().all(|byte| byte.is_ascii_hexdigit())
}

/// Returns true if all characters are digits, in either case.
pub fn are_digits(characters: &[u8]) -> bool
    ensures { IsTrue result ↔ AllPass is_hex_digit characters.now }
{
    let mut rest = characters;
    while rest.len() >= STEP {
        let (step, after) = rest.split_at(STEP);
        if !step_is_digits(step) {
            return false;
        }
        rest = after;
    }
    few_are_digits(rest)
}
