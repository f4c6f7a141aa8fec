ghost use Rattle.std.specs.Prelude.{◌≤◌, length, slice_index};
ghost use Rattle.std.specs.Option.{SomeIff};
ghost use Rattle.nd_decode.specs.Option.{prefix_of};

use byteorder::{BigEndian, ByteOrder};
use nd_addr::{Addr, Prefix};

/// What a router announces of a prefix (RFC 4861, section 4.6.2).
#[derive(Clone, Copy, Debug, PartialEq, Eq)]
pub struct PrefixInfo {
    /// The prefix. Its bits past its length are zero, for any bits received.
    pub prefix: Prefix,
    /// The flag L: its addresses are on the link.
    pub on_link: bool,
    /// The flag A: a host may form an address from it (RFC 4862, section 5.5.3).
    pub autonomous: bool,
    /// The time for which it is on the link, in seconds, all ones for infinity.
    pub valid_lifetime: u32,
    /// The time for which the addresses formed from it are preferred, in seconds, all ones for infinity.
    pub preferred_lifetime: u32,
}

impl PrefixInfo {
    /// Its length in units of 8 bytes.
    pub const UNITS: u8 = 4;

    /// Its length in bytes.
    pub const BYTES: usize = 32;

    /// The place of Prefix Length.
    pub const PREFIX_LENGTH_AT: usize = 2;

    /// The place of the byte of flags.
    pub const FLAGS_AT: usize = 3;

    /// The flag L, on-link.
    pub const FLAG_ON_LINK: u8 = 0x80;

    /// The flag A, autonomous address-configuration.
    pub const FLAG_AUTONOMOUS: u8 = 0x40;

    /// The place of Valid Lifetime, in 4 bytes.
    pub const VALID_LIFETIME_AT: usize = 4;

    /// The place of Preferred Lifetime, in 4 bytes.
    pub const PREFERRED_LIFETIME_AT: usize = 8;

    /// The place of Prefix, in 16 bytes.
    pub const PREFIX_AT: usize = 16;

    /// Returns the fields at their places, if the prefix length is at most 128.
    pub(crate) fn read(piece: &[u8]) -> Option<PrefixInfo>
        requires { 32 ≤ length piece.now }
        ensures { SomeIff result (slice_index piece.now 2 ≤ 128) (prefix_of piece.now) }
    {
        let prefix = Prefix::new(
            Addr::at(piece, Self::PREFIX_AT),
            piece[Self::PREFIX_LENGTH_AT],
        )?;
        Some(PrefixInfo {
            prefix,
            on_link: piece[Self::FLAGS_AT] & Self::FLAG_ON_LINK != 0,
            autonomous: piece[Self::FLAGS_AT] & Self::FLAG_AUTONOMOUS != 0,
            valid_lifetime: BigEndian::read_u32(&piece[Self::VALID_LIFETIME_AT..]),
            preferred_lifetime: BigEndian::read_u32(&piece[Self::PREFERRED_LIFETIME_AT..]),
        })
    }
}
