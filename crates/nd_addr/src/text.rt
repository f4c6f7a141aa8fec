ghost use Rattle.std.specs.Prelude.{◌≡◌, ◌++◌, OnOk, string_bytes};
ghost use Rattle.nd_addr.specs.Spelling.{SpellsMac, SpellsPrefix};
ghost use Rattle.nd_addr.specs.Text.{groups_of, address_text, mac_text, prefix_text};
ghost use Rattle.nd_text.specs.Spelling.{SpellsAddress};
ghost use Rattle.nd_text.specs.Text.{IsText};

use crate::addr::Addr;
use crate::mac::Mac;
use crate::prefix::Prefix;
use byteorder::{BigEndian, ByteOrder};
use nd_text::{byte_digits, push_ascii, write_groups};
use std::alloc::{AllocError, Allocator};
use std::fmt::Write;

/// Returns the eight groups of an address.
fn groups_in(address: &Addr) -> [u16; 8]
    ensures { result ≡ groups_of address.now.0 }
{
    let bytes = &address.0;
    [
        BigEndian::read_u16(&bytes[0..]),
        BigEndian::read_u16(&bytes[2..]),
        BigEndian::read_u16(&bytes[4..]),
        BigEndian::read_u16(&bytes[6..]),
        BigEndian::read_u16(&bytes[8..]),
        BigEndian::read_u16(&bytes[10..]),
        BigEndian::read_u16(&bytes[12..]),
        BigEndian::read_u16(&bytes[14..]),
    ]
}

impl Addr {
    /// Appends the text of RFC 5952. Returns an error if out of memory.
    pub fn write_text<A: Allocator>(&self, text: &mut String<A>) -> Result<(), AllocError>
        ensures written { OnOk result (string_bytes text.new ≡ string_bytes text.old ++ address_text self.now.0) }
        // It is the text of the first of the longest runs of zeros, and spells the address.
        ensures rules { IsText (groups_of self.now.0) (address_text self.now.0) }
        ensures spelled { SpellsAddress (address_text self.now.0) (groups_of self.now.0) }
    {
        let _bytes = self.as_bytes();
        write_groups(text, &groups_in(self))
    }
}

/// Returns the six pairs of digits of an Ethernet address, in lower case with colons between them.
fn mac_digits(mac: &Mac) -> [u8; 17]
    ensures { result ≡ mac_text mac.now.0 }
{
    let [a, b, c, d, e, f] = mac.0;
    let ([a, b], [c, d], [e, f], [g, h], [i, j], [k, l]) = (
        byte_digits(a),
        byte_digits(b),
        byte_digits(c),
        byte_digits(d),
        byte_digits(e),
        byte_digits(f),
    );
    [
        a, b, b':', c, d, b':', e, f, b':', g, h, b':', i, j, b':', k, l,
    ]
}

impl Mac {
    /// Appends six pairs of digits in lower case with colons between them. Returns an error if out of memory.
    pub fn write_text<A: Allocator>(&self, text: &mut String<A>) -> Result<(), AllocError>
        ensures written { OnOk result (string_bytes text.new ≡ string_bytes text.old ++ mac_text self.now.0) }
        ensures spelled { SpellsMac (mac_text self.now.0) self.now.0 }
    {
        let _bytes = self.as_bytes();
        push_ascii(text, &mac_digits(self))
    }
}

impl Prefix {
    /// Appends its address, a slash and its length. Returns an error if out of memory.
    pub fn write_text<A: Allocator>(&self, text: &mut String<A>) -> Result<(), AllocError>
        ensures written { OnOk result (string_bytes text.new ≡ string_bytes text.old ++ prefix_text self.now) }
        ensures spelled { SpellsPrefix (prefix_text self.now) self.now }
    {
        self.address().write_text(text)?;
        let length = self.length();
        write!(text, "/{length}")
    }
}
