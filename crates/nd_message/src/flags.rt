ghost use Rattle.std.specs.Prelude.{◌≡◌, if◌then◌else◌};
ghost use Rattle.nd_message.specs.Spelling.{preference_bits};

use nd_addr::Preference;
use nd_decode::RouterAdvertisement;

/// Returns the bits of the mask if the flag is set, and 0 otherwise.
pub(crate) fn flag(is_set: bool, mask: u8) -> u8
    ensures { result ≡ (if is_set then mask else 0) }
{
    if is_set { mask } else { 0 }
}

/// Returns the two bits of a preference in the byte of flags of a Router Advertisement (RFC 4191, section 2.1).
pub(crate) fn preference_bits(preference: Preference) -> u8
    ensures { result ≡ preference_bits preference }
{
    match preference {
        Preference::High => RouterAdvertisement::FLAG_NOT_MEDIUM,
        Preference::Medium => 0,
        Preference::Low => RouterAdvertisement::FLAG_NOT_MEDIUM | RouterAdvertisement::FLAG_LOW,
    }
}
