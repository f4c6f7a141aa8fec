//! Addresses read from text.

ghost use Rattle.std.specs.Prelude.{◌≡◌, ℕ, List, IfOk, IsOkAnd};
ghost use Rattle.nd_addr.specs.Text.{groups_of};
ghost use Rattle.nd_text.specs.Spelling.{SpellsAddress};

use crate::addr::Addr;
use byteorder::{BigEndian, ByteOrder};
use nd_text::{known_groups, parse_groups};

/// Returns the address of eight groups.
fn address_of(groups: [u16; 8]) -> Addr
    ensures { groups_of result.0 ≡ groups }
{
    let mut bytes = [0; 16];
    BigEndian::write_u16_into(known_groups(&groups), &mut bytes);
    Addr(bytes)
}

/// Why a text spells nothing of its kind.
#[derive(Clone, Copy, Debug, PartialEq, Eq)]
pub enum TextFault {
    /// The text is malformed.
    Malformed = 1,
}

impl Addr {
    /// Returns the address that a text spells (RFC 4291, section 2.2): eight groups of one to four hexadecimal digits in either case, separated by
    /// colons, or fewer with one `::` for at least one group of zero. Any other text is malformed.
    pub fn parse(text: &[u8]) -> Result<Addr, TextFault>
        ensures found { IfOk result (λ address. SpellsAddress text.now (groups_of address.0)) }
        ensures only { (groups : List ℕ) → SpellsAddress text.now groups → IsOkAnd result (λ address. groups_of address.0 ≡ groups) }
    {
        match parse_groups(text) {
            Some(groups) => Ok(address_of(groups)),
            None => Err(TextFault::Malformed),
        }
    }
}
