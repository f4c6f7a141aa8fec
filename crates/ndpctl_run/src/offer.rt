//! The words of a script that spell a prefix for a router to advertise.

ghost use Rattle.std.specs.Prelude.{◌≡◌, Some, IfSome};
ghost use Rattle.nd_decode.specs.declared.prefix_info.PrefixInfo.{PrefixInfo};
ghost use Rattle.ndpctl_run.specs.Offer.{IsOffer};

use crate::flags::read_prefix_flags;
use crate::number::read_u32_or;
use crate::prefix::read_prefix;
use crate::words::four_words;
use nd_advertiser::{Offer, OfferFlags};

/// AdvValidLifetime by default, in seconds: 30 days (RFC 4861, section 6.2.1).
const DEFAULT_VALID_LIFETIME: u32 = 2_592_000;

/// AdvPreferredLifetime by default, in seconds: 7 days (RFC 4861, section 6.2.1).
const DEFAULT_PREFERRED_LIFETIME: u32 = 604_800;

/// Returns the offer that the words of a text spell: a prefix, AdvValidLifetime and AdvPreferredLifetime in seconds, and the flags (RFC 4861,
/// section 6.2.1).
pub(crate) fn read_offer(text: &[u8]) -> Option<Offer>
    ensures found { IfSome result (λ info. IsOffer text.now info) }
    ensures only { (info : PrefixInfo) → IsOffer text.now info → result ≡ Some info }
{
    let (prefix, valid, preferred, flags) = four_words(text)?;
    let prefix = read_prefix(prefix)?;
    let valid = read_u32_or(valid, DEFAULT_VALID_LIFETIME)?;
    let preferred = read_u32_or(preferred, DEFAULT_PREFERRED_LIFETIME)?;
    let (on_link, autonomous) = read_prefix_flags(flags)?;
    let flags = OfferFlags {
        on_link,
        autonomous,
    };
    Offer::new(prefix, valid, preferred, flags).ok()
}
