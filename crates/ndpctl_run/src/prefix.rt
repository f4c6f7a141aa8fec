//! The words of a script that spell prefixes.

ghost use Rattle.std.specs.Prelude.{◌≡◌, Some, IfSome};
ghost use Rattle.nd_addr.specs.Prefix.{PrefixValue};
ghost use Rattle.nd_addr.specs.Spelling.{SpellsPrefix};

use nd_addr::Prefix;

/// Returns the prefix that a word spells.
pub(crate) fn read_prefix(word: &[u8]) -> Option<Prefix>
    ensures found { IfSome result (λ prefix. SpellsPrefix word.now prefix) }
    ensures only { (prefix : PrefixValue) → SpellsPrefix word.now prefix → result ≡ Some prefix }
{
    Prefix::parse(word).ok()
}
