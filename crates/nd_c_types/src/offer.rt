//! A prefix that a router advertises, from and to C. The definitions are in `specs/Offer.antt`.

ghost use Rattle.std.specs.Prelude.{◌≡◌, Some};
ghost use Rattle.nd_c_types.specs.Offer.{is_well_formed, offer_of, offer_row};

use nd_addr::{Addr, Prefix};
use nd_advertiser::{Offer, OfferFlags};

/// A prefix that a router advertises: `nd_offer_row` of the header.
#[repr(C)]
#[derive(Clone, Copy, Drop)]
pub struct OfferRow {
    pub prefix: [u8; 16],
    /// Its length, 0 to 128.
    pub bits: u32,
    /// In seconds, or ND_LIFETIME_INFINITE.
    pub valid_lifetime: u32,
    /// In seconds, or ND_LIFETIME_INFINITE.
    pub preferred_lifetime: u32,
    pub on_link: u8,
    pub autonomous: u8,
    pub reserved: [u8; 2],
}

impl OfferRow {
    /// Returns the row of an offer.
    pub fn of(offer: &Offer) -> OfferRow
        ensures value { result ≡ offer_row offer.now }
        ensures back { offer_of result ≡ Some offer.now }
    {
        let info = offer.info();
        let prefix = info.prefix;
        let address = prefix.address();
        let bytes = address.0;
        OfferRow {
            prefix: bytes,
            bits: u32::from(prefix.length()),
            valid_lifetime: info.valid_lifetime,
            preferred_lifetime: info.preferred_lifetime,
            on_link: u8::from(info.on_link),
            autonomous: u8::from(info.autonomous),
            reserved: [0; 2],
        }
    }

    /// Returns the offer that the row describes. The bits of the prefix past its length are cleared. Returns `None` if a field is outside its
    /// range, or the offer breaks a rule of RFC 4861, section 6.2.1.
    pub fn offer(&self) -> Option<Offer>
        ensures { result ≡ offer_of self.now }
    {
        if !self.is_well_formed() {
            return None;
        }
        let prefix = Prefix::new(Addr(self.prefix), self.bits as u8)?;
        let flags = OfferFlags {
            on_link: self.on_link == 1,
            autonomous: self.autonomous == 1,
        };
        Offer::new(prefix, self.valid_lifetime, self.preferred_lifetime, flags).ok()
    }

    /// Returns true if the prefix length is at most 128, the flags are 0 or 1, and the reserved fields are 0.
    fn is_well_formed(&self) -> bool
        ensures { result ≡ is_well_formed self.now }
    {
        self.bits <= 128
            && self.on_link <= 1
            && self.autonomous <= 1
            && self.reserved[0] == 0
            && self.reserved[1] == 0
    }
}
