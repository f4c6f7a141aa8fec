//! Interface identifiers: the address that an interface forms from a prefix and its Ethernet address.

ghost use Rattle.std.specs.Prelude.{◌≡◌};
ghost use Rattle.nd_addr.specs.InterfaceId.{address_from_mac};

use crate::addr::Addr;
use crate::mac::Mac;
use crate::prefix::Prefix;

impl Addr {
    /// Returns the address of an interface: a prefix of 64 bits, and the modified EUI-64 of its Ethernet address (RFC 4291, appendix A; RFC 2464,
    /// section 4).
    pub fn from_mac(prefix: &Prefix, mac: Mac) -> Addr
        requires { prefix.now.length ≡ 64 }
        ensures { result.0 ≡ address_from_mac prefix.now.address.0 mac.0 }
    {
        let mut address = prefix.address();
        let [a, b, c, d, e, f] = mac.0;
        address.0[8..].copy_from_slice(&[a ^ 2, b, c, 0xff, 0xfe, d, e, f]);
        address
    }
}
