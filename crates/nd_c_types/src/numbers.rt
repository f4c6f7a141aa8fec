//! Values that are numbers in several structures. Their definitions are in `specs/Numbers.antt`.

ghost use Rattle.std.specs.Prelude.{◌≡◌};
ghost use Rattle.nd_c_types.specs.Numbers.{left_number, preference_in};

use crate::header::FOREVER;
use nd_addr::Preference;
use nd_heard::header::{PREFERENCE_HIGH, PREFERENCE_LOW};

/// Returns what is left of a lifetime, in milliseconds: ND_FOREVER if it has no end.
pub(crate) fn left_number(left: Option<u64>) -> u64
    ensures { result ≡ left_number left }
{
    match left {
        Some(left) => left,
        None => FOREVER,
    }
}

/// Returns the preference with this number, and Medium for a number that is no preference.
pub(crate) fn preference_in(number: u8) -> Preference
    ensures { result ≡ preference_in number }
{
    match number {
        PREFERENCE_HIGH => Preference::High,
        PREFERENCE_LOW => Preference::Low,
        _ => Preference::Medium,
    }
}
