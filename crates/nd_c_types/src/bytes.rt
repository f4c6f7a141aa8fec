//! Numbers in the bytes of a structure of C, whose lowest byte is the first one, as on every machine that the library is made for. A byte that is not
//! there is 0.

ghost use Rattle.std.specs.Prelude.{◌≡◌, ◌<◌, slice_index};
ghost use Rattle.byteorder.specs.Endian.{little_from};

/// Returns the byte at a place.
pub(crate) fn byte_at(bytes: &[u8], at: usize) -> u8
    ensures { result ≡ slice_index bytes.now at }
{
    match bytes.get(at) {
        Some(byte) => *byte,
        None => 0,
    }
}

/// Returns the number of 16 bits at a place.
pub(crate) fn u16_at(bytes: &[u8], at: usize) -> u16
    requires { at < 256 }
    ensures { result ≡ little_from at 2 bytes.now }
{
    u16::from_le_bytes([byte_at(bytes, at), byte_at(bytes, at + 1)])
}

/// Returns the number of 32 bits at a place.
pub(crate) fn u32_at(bytes: &[u8], at: usize) -> u32
    requires { at < 256 }
    ensures { result ≡ little_from at 4 bytes.now }
{
    u32::from_le_bytes([
        byte_at(bytes, at),
        byte_at(bytes, at + 1),
        byte_at(bytes, at + 2),
        byte_at(bytes, at + 3),
    ])
}

/// Returns the number of 64 bits at a place.
pub(crate) fn u64_at(bytes: &[u8], at: usize) -> u64
    requires { at < 256 }
    ensures { result ≡ little_from at 8 bytes.now }
{
    u64::from_le_bytes([
        byte_at(bytes, at),
        byte_at(bytes, at + 1),
        byte_at(bytes, at + 2),
        byte_at(bytes, at + 3),
        byte_at(bytes, at + 4),
        byte_at(bytes, at + 5),
        byte_at(bytes, at + 6),
        byte_at(bytes, at + 7),
    ])
}
