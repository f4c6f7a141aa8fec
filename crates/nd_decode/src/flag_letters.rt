//! The letters by which flags are printed and read (our choice), each set of flags in one table.

ghost use Rattle.std.specs.Prelude.{◌≡◌, codes};
ghost use Rattle.nd_text.specs.Flags.{flags_text};
ghost use Rattle.nd_decode.specs.RouterFlags.{router_flags_text};

use nd_addr::Preference;

/// Returns the letters of the flags of a Router Advertisement: `m` for M, `o` for O, then `h` for High or `l` for Low; `-` if there are none.
pub fn router_flags_text(managed: bool, other: bool, preference: Preference) -> &'static str
    ensures { result.now ≡ router_flags_text managed other preference }
{
    match (managed, other, preference) {
        (false, false, Preference::Medium) => "-",
        (true, false, Preference::Medium) => "m",
        (false, true, Preference::Medium) => "o",
        (true, true, Preference::Medium) => "mo",
        (false, false, Preference::High) => "h",
        (true, false, Preference::High) => "mh",
        (false, true, Preference::High) => "oh",
        (true, true, Preference::High) => "moh",
        (false, false, Preference::Low) => "l",
        (true, false, Preference::Low) => "ml",
        (false, true, Preference::Low) => "ol",
        (true, true, Preference::Low) => "mol",
    }
}

/// Returns the letters of the flags of a prefix: `l` for L, then `a` for A; `-` if neither is set.
pub fn prefix_flags_text(on_link: bool, autonomous: bool) -> &'static str
    ensures { result.now ≡ flags_text on_link autonomous (codes "l") (codes "a") }
{
    match (on_link, autonomous) {
        (true, true) => "la",
        (true, false) => "l",
        (false, true) => "a",
        (false, false) => "-",
    }
}
