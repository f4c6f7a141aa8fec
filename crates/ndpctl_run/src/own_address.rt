//! The words of a script that spell an address that a node is given by hand.

ghost use Rattle.std.specs.Prelude.{◌≡◌, Some, IfSome};
ghost use Rattle.nd_slaac.specs.ByHand.{AddressByHand};
ghost use Rattle.ndpctl_run.specs.OwnAddress.{AreOwnAddressWords};

use crate::address::read_address;
use crate::number::read_u32_or;
use crate::words::three_words;
use nd_slaac::OwnAddress;

/// Each lifetime by default, in seconds: one without an end (RFC 4861, section 4.6.2).
const ENDLESS_LIFETIME: u32 = 0xffff_ffff;

/// Returns the address that the words of a text spell, with its valid and its preferred lifetime in seconds (RFC 4862, section 5.4).
pub(crate) fn read_own_address(text: &[u8]) -> Option<OwnAddress>
    ensures found { IfSome result (λ own. AreOwnAddressWords text.now own) }
    ensures only { (own : AddressByHand) → AreOwnAddressWords text.now own → result ≡ Some own }
{
    let (address, valid, preferred) = three_words(text)?;
    let address = read_address(address)?;
    let valid = read_u32_or(valid, ENDLESS_LIFETIME)?;
    let preferred = read_u32_or(preferred, ENDLESS_LIFETIME)?;
    OwnAddress::new(address, valid, preferred)
}
