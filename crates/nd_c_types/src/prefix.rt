//! A prefix on the link, as C sees it. The definition is in `specs/Prefix.antt`.

ghost use Rattle.std.specs.Prelude.{◌≡◌};
ghost use Rattle.nd_c_types.specs.Prefix.{prefix_row};

use crate::numbers::left_number;
use nd_addr::Prefix;
use nd_table::WithLifetime;

/// A prefix on the link: `nd_prefix_row` of the header.
#[repr(C)]
#[derive(Clone, Copy, Drop)]
pub struct PrefixRow {
    /// What is left of its valid lifetime, in milliseconds, or ND_FOREVER.
    pub left: u64,
    pub prefix: [u8; 16],
    /// Its length, 0 to 128.
    pub bits: u32,
    pub reserved: u32,
}

impl PrefixRow {
    /// Returns the row of a prefix.
    pub fn of(prefix: &WithLifetime<'_, Prefix>) -> PrefixRow
        ensures { result ≡ prefix_row prefix.now }
    {
        let key = prefix.key;
        let address = key.address();
        let bytes = address.0;
        PrefixRow {
            left: left_number(prefix.left),
            prefix: bytes,
            bits: u32::from(key.length()),
            reserved: 0,
        }
    }
}
