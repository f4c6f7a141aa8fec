//! Ethernet addresses read from text.

ghost use Rattle.std.specs.Prelude.{◌≡◌, ◌+◌, ◌*◌, ◌<◌, ℕ, List, IfOk, IsOkAnd};
ghost use Rattle.std.specs.Option.{SomeIff};
ghost use Rattle.std.specs.Char.{digit_value};
ghost use Rattle.nd_addr.specs.Spelling.{SpellsMac};

use crate::mac::Mac;
use crate::parse::TextFault;

/// Returns the byte of two hexadecimal digits in either case.
fn read_pair(high: u8, low: u8) -> Option<u8>
    ensures { SomeIff result ((digit_value high < 16) × (digit_value low < 16)) (16 * digit_value high + digit_value low) }
{
    let high = char::from(high).to_digit(16)?;
    let low = char::from(low).to_digit(16)?;
    Some((16 * high + low) as u8)
}

impl Mac {
    /// Returns the Ethernet address that a text spells: six pairs of hexadecimal digits in either case, separated by colons. Any other text is
    /// malformed.
    pub fn parse(text: &[u8]) -> Result<Mac, TextFault>
        ensures found { IfOk result (λ mac. SpellsMac text.now mac.0) }
        ensures only { (bytes : List ℕ) → SpellsMac text.now bytes → IsOkAnd result (λ mac. mac.0 ≡ bytes) }
    {
        if text.len() != 17 {
            return Err(TextFault::Malformed);
        }
        let mut bytes = [0; 6];
        for i in 0..6usize {
            if i < 5 && text[3 * i + 2] != b':' {
                return Err(TextFault::Malformed);
            }
            match read_pair(text[3 * i], text[3 * i + 1]) {
                Some(byte) => bytes[i] = byte,
                None => return Err(TextFault::Malformed),
            }
        }
        Ok(Mac(bytes))
    }
}
