//! Kinds of address, and the multicast addresses that are made from others.

ghost use Rattle.std.specs.Prelude.{◌≡◌, ◌↔◌, IsTrue, bytes_eq};
ghost use Rattle.nd_addr.specs.Kind.{multicast_prefix, link_local_prefix, link_local_subnet, unspecified_address, loopback_address, solicited_node_of, multicast_mac_of};
ghost use Rattle.nd_addr.specs.Number.{Holds, holds};

use crate::addr::Addr;
use crate::mac::Mac;
use crate::prefix::Prefix;

impl Addr {
    /// The unspecified address `::` (RFC 4291, section 2.5.2).
    pub const UNSPECIFIED: Addr = Addr([0; 16]);

    /// The loopback address `::1` (RFC 4291, section 2.5.3).
    pub const LOOPBACK: Addr = Addr([0, 0, 0, 0, 0, 0, 0, 0, 0, 0, 0, 0, 0, 0, 0, 1]);

    /// The address of the link-local prefix, fe80:: (RFC 4291, section 2.5.6).
    pub const LINK_LOCAL: Addr = Addr([0xfe, 0x80, 0, 0, 0, 0, 0, 0, 0, 0, 0, 0, 0, 0, 0, 0]);

    /// All nodes of the link, `ff02::1` (RFC 4291, section 2.7.1).
    pub const ALL_NODES: Addr = Addr([0xff, 2, 0, 0, 0, 0, 0, 0, 0, 0, 0, 0, 0, 0, 0, 1]);

    /// All routers of the link, `ff02::2` (RFC 4291, section 2.7.1).
    pub const ALL_ROUTERS: Addr = Addr([0xff, 2, 0, 0, 0, 0, 0, 0, 0, 0, 0, 0, 0, 0, 0, 2]);

    /// Returns true if it is a multicast address, in ff00::/8 (RFC 4291, section 2.7).
    pub fn is_multicast(&self) -> bool
        ensures says { IsTrue result ↔ Holds multicast_prefix self.now.0 }
        ensures exactly { result ≡ holds multicast_prefix self.now.0 }
    {
        let bytes = self.as_bytes();
        bytes[0] == 0xff
    }

    /// Returns true if it is a link-local unicast address, in fe80::/10 (RFC 4291, section 2.5.6).
    pub fn is_link_local(&self) -> bool
        ensures says { IsTrue result ↔ Holds link_local_prefix self.now.0 }
        ensures exactly { result ≡ holds link_local_prefix self.now.0 }
    {
        let bytes = self.as_bytes();
        let [first, second, ..] = Addr::LINK_LOCAL.0;
        bytes[0] == first && bytes[1] / 64 == second / 64
    }

    /// Returns true if it is the unspecified address `::` (RFC 4291, section 2.5.2).
    pub fn is_unspecified(&self) -> bool
        ensures says { IsTrue result ↔ (self.now.0 ≡ unspecified_address) }
        ensures exactly { result ≡ bytes_eq self.now.0 unspecified_address }
    {
        *self == Addr::UNSPECIFIED
    }

    /// Returns true if it is the loopback address `::1` (RFC 4291, section 2.5.3).
    pub fn is_loopback(&self) -> bool
        ensures says { IsTrue result ↔ (self.now.0 ≡ loopback_address) }
        ensures exactly { result ≡ bytes_eq self.now.0 loopback_address }
    {
        *self == Addr::LOOPBACK
    }

    /// Returns its solicited-node multicast address: ff02::1:ff00:0/104 with its low 24 bits (RFC 4291, section 2.7.1).
    pub fn solicited_node(&self) -> Addr
        ensures { result.0 ≡ solicited_node_of self.now.0 }
    {
        let [.., a, b, c] = self.0;
        Addr([0xff, 2, 0, 0, 0, 0, 0, 0, 0, 0, 0, 1, 0xff, a, b, c])
    }
}

impl Prefix {
    /// Returns the subnet of link-local addresses, fe80::/64 (RFC 4291, section 2.5.6: the 54 bits after fe80::/10 are zero).
    pub fn link_local_subnet() -> Prefix
        ensures { result ≡ link_local_subnet }
    {
        match Prefix::new(Addr::LINK_LOCAL, 64) {
            Some(prefix) => prefix,
            None => unreachable!(),
        }
    }
}

impl Mac {
    /// Returns the Ethernet address to which a multicast packet is sent: 33:33 and the last four bytes of its destination (RFC 2464, section 7).
    pub fn multicast(destination: Addr) -> Mac
        ensures { result.0 ≡ multicast_mac_of destination.0 }
    {
        let [.., a, b, c, d] = destination.0;
        Mac([0x33, 0x33, a, b, c, d])
    }
}
