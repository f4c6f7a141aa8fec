ghost use Rattle.std.specs.Prelude.{◌≡◌, ◌↔◌, ◌≤◌, ◌-◌, ◌*◌, ◌/◌, ◌^◌, IsTrue};
ghost use Rattle.std.specs.Option.{SomeIff};
ghost use Rattle.nd_addr.specs.Bytes.{IsBytes};
ghost use Rattle.nd_addr.specs.Number.{Holds};
ghost use Rattle.nd_addr.specs.Prefix.{PrefixValue, IsPrefix, masked, prefix_at};

use crate::addr::Addr;
use std::marker::Model;

/// The first bits of an address, 0 to 128 of them (RFC 4291, section 2.3). The bits past them are zero.
#[derive(Clone, Copy, Debug, PartialEq, Eq, PartialOrd, Ord, Hash)]
pub struct Prefix {
    address: Addr,
    length: u8,
}

impl Model for Prefix {
    ghost Value = { PrefixValue };

    ghost view = { λ p. record { address = p.address; length = p.length } };

    ghost invariant = { λ p. IsPrefix p.address.0 p.length };

    ghost inverse = { λ v. record { address = v.address; length = v.length } };
}

impl Prefix {
    /// Returns the first bits of an address; its bits past them are set to zero. Returns `None` for a length above 128 (RFC 4861, section 4.6.2).
    pub fn new(address: Addr, length: u8) -> Option<Prefix>
        ensures { SomeIff result (length ≤ 128) (prefix_at length address.0) }
    {
        if length > 128 {
            return None;
        }
        Some(Prefix {
            address: Addr(first_bits(&address.0, length)),
            length,
        })
    }

    /// Returns the address with only zeros past the prefix.
    pub fn address(&self) -> Addr
        ensures value { result ≡ self.now.address }
        ensures prefix { IsPrefix self.now.address.0 self.now.length }
    {
        self.address
    }

    /// Returns true if an address is in the prefix: both have the same bits there (RFC 4291, section 2.3).
    pub fn holds(&self, address: Addr) -> bool
        ensures { IsTrue result ↔ Holds self.now address.0 }
    {
        let _bytes = address.as_bytes();
        is_same(first_bits(&address.0, self.length), self.address.0)
    }

    /// Returns the number of its bits, 0 to 128.
    pub fn length(&self) -> u8
        ensures value { result ≡ self.now.length }
        ensures prefix { IsPrefix self.now.address.0 self.now.length }
    {
        self.length
    }
}

/// Returns true if two addresses have the same bytes.
fn is_same(a: [u8; 16], b: [u8; 16]) -> bool
    ensures { IsTrue result ↔ (a ≡ b) }
{
    a == b
}

/// Returns a number of 128 bits with all but its first `length` bits cleared.
#[tactic(auto, using(crate::proofs::Numbers::kept_number))]
fn first_bits_of_number(number: u128, length: u8) -> u128
    requires { length ≤ 128 }
    ensures { result ≡ number / 2 ^ (128 - length) * 2 ^ (128 - length) }
{
    if length == 0 {
        return 0;
    }
    let behind = 128 - length;
    number >> behind << behind
}

/// Returns an address with all but its first `length` bits cleared.
fn first_bits(bytes: &[u8; 16], length: u8) -> [u8; 16]
    requires { length ≤ 128 }
    ensures masked { result ≡ masked length bytes.now }
    ensures bytes { IsBytes result }
{
    let number = Addr(*bytes).to_bits();
    let first = first_bits_of_number(number, length);
    // Mostly the other bits are clear already.
    if first == number {
        return *bytes;
    }
    Addr::from_bits(first).0
}
