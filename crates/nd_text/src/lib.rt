//! Texts: that of an IPv6 address, by its eight groups of 16 bits (RFC 4291, section 2.2; RFC 5952), and bytes as hexadecimal digits, written
//! and read, as the library `hex` reads them, and faster.
#![tactic(auto)]

mod digits;
mod groups;
mod hex_bytes;
mod hex_digits;
mod hex_steps;
pub mod laws;
mod parse;
mod text;

pub use digits::{byte_digits, push_ascii, push_byte, write_hex};
pub use groups::known_groups;
pub use hex::FromHexError;
pub use hex_bytes::{decode_hex, decode_hex_to_slice};
pub use hex_digits::are_digits;
pub use parse::parse_groups;
pub use text::write_groups;
