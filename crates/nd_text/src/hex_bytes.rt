//! Bytes from hexadecimal digits, as the library `hex` reads them, and faster.

ghost use Rattle.std.specs.Prelude.{◌≡◌, ◌⊎◌, length, MatchResult, IfOk, IfErr, Ok, Err};
ghost use Rattle.hex.specs.Hex.{decode_of, decode_sized};
ghost use Rattle.hex.specs.declared.error.FromHexError.TheVariants.{OutOfMemory};

use crate::hex_steps::decode_quickly;
use hex::FromHexError;
use std::alloc::Allocator;

/// Decodes digits, in either case, to half as many bytes, as the library does. After an error the bytes are unspecified.
pub fn decode_hex_to_slice(digits: &[u8], bytes: &mut [u8]) -> Result<(), FromHexError>
    ensures { MatchResult (decode_sized digits.now (length bytes.old)) (λ spelled. (result ≡ Ok tt) × (bytes.new ≡ spelled)) (λ e. result ≡ Err e) }
{
    if digits.len() % 2 == 0 && digits.len() / 2 == bytes.len() && decode_quickly(digits, bytes) {
        return Ok(());
    }
    // The library decodes a few digits, and any text with a character that is no digit: it finds that character.
    hex::decode_to_slice(digits, bytes)
}

/// Returns the bytes that digits spell, in either case, as the library does.
pub fn decode_hex<A: Allocator>(alloc: A, digits: &[u8]) -> Result<Vec<u8, A>, FromHexError>
    ensures ok { IfOk result (λ bytes. decode_of digits.now ≡ Ok bytes.items) }
    ensures err { IfErr result (λ e. (e ≡ OutOfMemory) ⊎ (decode_of digits.now ≡ Err e)) }
{
    if digits.len() % 2 != 0 {
        return Err(FromHexError::OddLength);
    }
    let mut bytes = vec![in alloc; 0u8; digits.len() / 2]?;
    decode_hex_to_slice(digits, bytes.as_mut_slice())?;
    Ok(bytes)
}
