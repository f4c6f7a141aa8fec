//! An address that a node is given by hand, from C. The definition is in `specs/OwnAddress.antt`.

ghost use Rattle.std.specs.Prelude.{◌≡◌};
ghost use Rattle.nd_c_types.specs.OwnAddress.{own_of};

use nd_addr::Addr;
use nd_slaac::OwnAddress as AddressByHand;

/// An address that a node is given by hand, with its lifetimes: `nd_own_address` of the header.
#[repr(C)]
#[derive(Clone, Copy, Drop)]
pub struct OwnAddress {
    pub address: [u8; 16],
    /// In seconds, or ND_LIFETIME_INFINITE.
    pub valid_lifetime: u32,
    /// In seconds, or ND_LIFETIME_INFINITE.
    pub preferred_lifetime: u32,
}

impl OwnAddress {
    /// Returns the address with its lifetimes. Returns `None` for a multicast address, for `::` and `::1`, for a valid lifetime of 0, and for a
    /// preferred one above the valid one.
    pub fn own(&self) -> Option<AddressByHand>
        ensures { result ≡ own_of self.now }
    {
        AddressByHand::new(
            Addr(self.address),
            self.valid_lifetime,
            self.preferred_lifetime,
        )
    }
}
