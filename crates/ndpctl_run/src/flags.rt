//! The words of a script that spell flags.

ghost use Rattle.std.specs.Prelude.{◌≡◌, Bool, codes, Some, IfSome};
ghost use Rattle.nd_addr.specs.declared.preference.Preference.{Preference};
ghost use Rattle.nd_decode.specs.RouterFlags.{router_flags_text};
ghost use Rattle.nd_text.specs.Flags.{flags_text};

use nd_addr::Preference;
use nd_decode::{prefix_flags_text, router_flags_text};

/// Returns the flags M and O of a Router Advertisement, and its preference, that a word spells (RFC 4861, section 4.2; RFC 4191, section 2.2).
pub(crate) fn read_router_flags(word: &[u8]) -> Option<(bool, bool, Preference)>
    ensures found { IfSome result (λ set. word.now ≡ router_flags_text set.0 set.1 set.2) }
    ensures only { (managed other : Bool) (preference : Preference) → word.now ≡ router_flags_text managed other preference → result ≡ Some (managed, other, preference) }
{
    if let Some((managed, other)) = read_preferred(word, Preference::Medium) {
        return Some((managed, other, Preference::Medium));
    }
    if let Some((managed, other)) = read_preferred(word, Preference::High) {
        return Some((managed, other, Preference::High));
    }
    let (managed, other) = read_preferred(word, Preference::Low)?;
    Some((managed, other, Preference::Low))
}

/// Returns the flags M and O that a word spells if its preference is `preference`.
fn read_preferred(word: &[u8], preference: Preference) -> Option<(bool, bool)>
    ensures found { IfSome result (λ set. word.now ≡ router_flags_text set.0 set.1 preference) }
    ensures only { (managed other : Bool) → word.now ≡ router_flags_text managed other preference → result ≡ Some (managed, other) }
{
    if word == router_flags_text(false, false, preference).as_bytes() {
        return Some((false, false));
    }
    if word == router_flags_text(true, false, preference).as_bytes() {
        return Some((true, false));
    }
    if word == router_flags_text(false, true, preference).as_bytes() {
        return Some((false, true));
    }
    if word == router_flags_text(true, true, preference).as_bytes() {
        return Some((true, true));
    }
    None
}

/// Returns the flags L and A of a prefix that a word spells (RFC 4861, section 4.6.2).
pub(crate) fn read_prefix_flags(word: &[u8]) -> Option<(bool, bool)>
    ensures found { IfSome result (λ set. word.now ≡ flags_text set.0 set.1 (codes "l") (codes "a")) }
    ensures only { (on_link autonomous : Bool) → word.now ≡ flags_text on_link autonomous (codes "l") (codes "a") → result ≡ Some (on_link, autonomous) }
{
    if word == prefix_flags_text(false, false).as_bytes() {
        return Some((false, false));
    }
    if word == prefix_flags_text(true, false).as_bytes() {
        return Some((true, false));
    }
    if word == prefix_flags_text(false, true).as_bytes() {
        return Some((false, true));
    }
    if word == prefix_flags_text(true, true).as_bytes() {
        return Some((true, true));
    }
    None
}
