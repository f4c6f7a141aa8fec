ghost use Rattle.std.specs.Prelude.{◌≡◌, ◌≤◌, length};
ghost use Rattle.nd_decode.specs.Message.{neighbor_advertisement_of};

use nd_addr::Addr;

/// What the owner of an address announces of itself (RFC 4861, section 4.4).
#[derive(Clone, Copy, Debug, PartialEq, Eq)]
pub struct NeighborAdvertisement {
    /// The sender is a router.
    pub router: bool,
    /// It answers a solicitation.
    pub solicited: bool,
    /// Its link-layer address replaces a known one.
    pub override_flag: bool,
    /// The address that is announced.
    pub target: Addr,
}

impl NeighborAdvertisement {
    /// The length of its fields, in bytes, which is where its options begin.
    pub const LENGTH: usize = 24;

    /// The place of the byte of flags.
    pub const FLAGS_AT: usize = 4;

    /// The flag R, Router.
    pub const FLAG_ROUTER: u8 = 0x80;

    /// The flag S, Solicited.
    pub const FLAG_SOLICITED: u8 = 0x40;

    /// The flag O, Override.
    pub const FLAG_OVERRIDE: u8 = 0x20;

    /// The place of Target Address.
    pub const TARGET_AT: usize = 8;

    /// Returns the fields at their places.
    pub(crate) fn read(bytes: &[u8]) -> NeighborAdvertisement
        requires { 24 ≤ length bytes.now }
        ensures { result ≡ neighbor_advertisement_of bytes.now }
    {
        NeighborAdvertisement {
            router: bytes[Self::FLAGS_AT] & Self::FLAG_ROUTER != 0,
            solicited: bytes[Self::FLAGS_AT] & Self::FLAG_SOLICITED != 0,
            override_flag: bytes[Self::FLAGS_AT] & Self::FLAG_OVERRIDE != 0,
            target: Addr::at(bytes, Self::TARGET_AT),
        }
    }
}
