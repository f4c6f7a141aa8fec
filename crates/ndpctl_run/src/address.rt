//! The words of a script that spell addresses.

ghost use Rattle.std.specs.Prelude.{◌≡◌, List, ℕ, Some, IfSome};
ghost use Rattle.std.specs.Option.{IsSomeAnd};
ghost use Rattle.ndpctl_run.specs.Address.{IsAddressWord};
ghost use Rattle.ndpctl_run.specs.Words.{Parts};

use crate::words::split_word;
use nd_addr::Addr;

/// Returns the address that a word spells.
pub(crate) fn read_address(word: &[u8]) -> Option<Addr>
    ensures found { IfSome result (λ address. IsAddressWord word.now address) }
    ensures only { (address : Addr) → IsAddressWord word.now address → result ≡ Some address }
{
    match Addr::parse(word) {
        Ok(address) => {
            let _bytes = address.as_bytes();
            Some(address)
        }
        Err(_) => None,
    }
}

/// Returns the address that the first word of a text spells, and what follows its space.
pub(crate) fn split_address(text: &[u8]) -> Option<(Addr, &[u8])>
    ensures found { IfSome result (λ parts. Parts text.now (λ word. IsAddressWord word parts.0) (λ rest. rest ≡ parts.1.now)) }
    ensures only { (address : Addr) (rest : List ℕ) → Parts text.now (λ word. IsAddressWord word address) (λ r. r ≡ rest)
        → IsSomeAnd result (λ parts. (parts.0 ≡ address) × (parts.1.now ≡ rest)) }
{
    let (word, rest) = split_word(text)?;
    let address = read_address(word)?;
    Some((address, rest))
}
