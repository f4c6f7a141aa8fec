ghost use Rattle.std.specs.Prelude.{◌≡◌, ◌≤◌, ◌+◌, length, slice_range};
ghost use Rattle.nd_addr.specs.Bytes.{AreBytes};

use crate::bytes::known;

/// An Ethernet address, by its 6 bytes in the order in which they are sent (RFC 2464).
#[derive(Clone, Copy, Debug, PartialEq, Eq, PartialOrd, Ord, Hash)]
pub struct Mac(pub [u8; 6]);

impl Mac {
    /// Returns its 6 bytes, in order.
    pub fn as_bytes(&self) -> &[u8]
        ensures value { result.now ≡ self.now.0 }
        ensures bytes { AreBytes 6 self.now.0 }
    {
        known(&self.0)
    }

    /// Returns the address in the 6 bytes from a place on.
    pub fn at(bytes: &[u8], place: usize) -> Mac
        requires { place + 6 ≤ length bytes.now }
        ensures { result.0 ≡ slice_range bytes.now place (place + 6) }
    {
        let mut address = [0; 6];
        address.copy_from_slice(&bytes[place..place + 6]);
        Mac(address)
    }
}
