//! The word for the number of solicitations of a duplicate address detection (DupAddrDetectTransmits).

ghost use Rattle.std.specs.Prelude.{◌≡◌, ℕ, Some, IfSome};
ghost use Rattle.ndpctl_run.specs.Transmits.{IsTransmitsWord};

use crate::number::read_number;
use nd_slaac::Transmits;

/// Returns the number of solicitations that a word spells: 1 to 8, in decimal digits with no sign and no leading zero.
pub fn read_transmits(word: &[u8]) -> Option<Transmits>
    ensures found { IfSome result (λ transmits. IsTransmitsWord word.now transmits) }
    ensures only { (transmits : ℕ) → IsTransmitsWord word.now transmits → result ≡ Some transmits }
{
    let number = read_number(word)?;
    if number > u8::MAX as u64 {
        return None;
    }
    Transmits::new(number as u8)
}
