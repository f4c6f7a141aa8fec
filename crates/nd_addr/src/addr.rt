ghost use Rattle.std.specs.Prelude.{◌≡◌, ◌≤◌, ◌+◌, bytes_eq, length, slice_range};
ghost use Rattle.std.proofs.Common.{rules};
ghost use Rattle.std.specs.Cmp.Rules.{comparing};
ghost use Rattle.nd_addr.specs.Bytes.{AreBytes};
ghost use Rattle.nd_addr.specs.Number.{addr_at, number_of};

use crate::bytes::known;
use byteorder::{BigEndian, ByteOrder};

/// An IPv6 address, by its 16 bytes in network order (RFC 4291, section 2).
///
/// The order of addresses is the order of their bytes, which is that of the 128-bit numbers.
#[derive(Clone, Copy, Debug, Eq, PartialOrd, Ord, Hash)]
pub struct Addr(pub [u8; 16]);

impl Addr {
    /// Returns its 16 bytes, in network order.
    pub fn as_bytes(&self) -> &[u8]
        ensures value { result.now ≡ self.now.0 }
        ensures bytes { AreBytes 16 self.now.0 }
    {
        known(&self.0)
    }

    /// Returns the address in the 16 bytes from a place on.
    pub fn at(bytes: &[u8], place: usize) -> Addr
        requires { place + 16 ≤ length bytes.now }
        ensures { result.0 ≡ slice_range bytes.now place (place + 16) }
    {
        let mut address = [0; 16];
        address.copy_from_slice(&bytes[place..place + 16]);
        Addr(address)
    }

    /// Returns it as a 128-bit number.
    pub fn to_bits(self) -> u128
        ensures { result ≡ number_of self.0 }
    {
        BigEndian::read_u128(self.as_bytes())
    }

    /// Returns the address of a 128-bit number.
    pub fn from_bits(bits: u128) -> Addr
        ensures value { result ≡ addr_at bits }
        ensures number { number_of result.0 ≡ bits }
    {
        let mut bytes = [0; 16];
        BigEndian::write_u128(&mut bytes, bits);
        Addr(bytes)
    }
}

/// Two addresses are equal if their bytes are, which are compared as two numbers.
impl PartialEq for Addr {
    ghost eq = { λ a b. bytes_eq a.0 b.0 };

    ghost laws = { Prim.search (comparing, rules) };

    #[tactic(auto, using(crate::proofs::Numbers::numbers_tell))]
    fn eq(&self, other: &Addr) -> bool {
        let _own = self.as_bytes();
        let _other = other.as_bytes();
        self.to_bits() == other.to_bits()
    }
}
