//! An address that is given by hand (RFC 4862, section 5.4). The definitions are in `specs/ByHand.antt`.

ghost use Rattle.std.specs.Prelude.{◌≡◌, true};
ghost use Rattle.std.specs.Option.{SomeIff};
ghost use Rattle.nd_slaac.specs.ByHand.{AddressByHand, IsOwnAddress, may_be_own};

use nd_addr::Addr;
use std::marker::Model;

/// An address that a node is given by hand, with its lifetimes (RFC 4862, section 5.4): a static one, one of DHCPv6, a router's global one, or one
/// that a stack chose itself.
#[derive(Clone, Copy, Debug, PartialEq, Eq)]
pub struct OwnAddress {
    addr: Addr,
    valid_lifetime: u32,
    preferred_lifetime: u32,
}

impl Model for OwnAddress {
    ghost use Rattle.std.specs.Prelude.{◌≡◌, true};
    ghost use Rattle.nd_slaac.specs.ByHand.{AddressByHand, may_be_own};

    ghost Value = { AddressByHand };

    ghost view = { λ o. record { address = o.addr; lifetimes = record { valid = o.valid_lifetime; preferred = o.preferred_lifetime } } };

    ghost invariant = { λ o. may_be_own (record { address = o.addr; lifetimes = record { valid = o.valid_lifetime; preferred = o.preferred_lifetime } }) ≡ true };

    ghost inverse = { λ v. record { addr = v.address; valid_lifetime = v.lifetimes.valid; preferred_lifetime = v.lifetimes.preferred } };
}

impl OwnAddress {
    /// Returns an address with its lifetimes, in seconds; 0xffffffff is a lifetime without an end (RFC 4861, section 4.6.2). Returns `None` for a
    /// multicast address, for `::` and `::1`, for a valid lifetime of 0, and for a preferred one above the valid one.
    pub fn new(addr: Addr, valid_lifetime: u32, preferred_lifetime: u32) -> Option<OwnAddress>
        ensures { SomeIff result (may_be_own (record { address = addr; lifetimes = record { valid = valid_lifetime; preferred = preferred_lifetime } }) ≡ true) (record { address = addr; lifetimes = record { valid = valid_lifetime; preferred = preferred_lifetime } }) }
    {
        if addr.is_multicast() || addr.is_unspecified() || addr.is_loopback() {
            return None;
        }
        if valid_lifetime == 0 || preferred_lifetime > valid_lifetime {
            return None;
        }
        Some(OwnAddress {
            addr,
            valid_lifetime,
            preferred_lifetime,
        })
    }

    /// Returns the address.
    pub fn addr(&self) -> Addr
        ensures value { result ≡ self.now.address }
        ensures own { IsOwnAddress self.now }
    {
        let _bytes = self.addr.as_bytes();
        self.addr
    }

    /// Returns the valid lifetime, in seconds.
    pub fn valid_lifetime(&self) -> u32
        ensures { result ≡ self.now.lifetimes.valid }
    {
        self.valid_lifetime
    }

    /// Returns the preferred lifetime, in seconds.
    pub fn preferred_lifetime(&self) -> u32
        ensures { result ≡ self.now.lifetimes.preferred }
    {
        self.preferred_lifetime
    }
}
