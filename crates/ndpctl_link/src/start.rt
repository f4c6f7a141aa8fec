//! The words of a `node` line, which starts a node.

ghost use Rattle.std.specs.Prelude.{◌≡◌, List, ℕ, Some, IfSome};
ghost use Rattle.std.specs.Option.{IsSomeAnd};
ghost use Rattle.nd_addr.specs.Spelling.{SpellsMac};
ghost use Rattle.ndpctl_run.specs.Words.{Parts, words_of};
ghost use Rattle.ndpctl_link.specs.Start.{IsStart, SpellEnd};

use crate::role::split_role;
use nd_addr::{Mac, Role};
use nd_random::Source;
use nd_slaac::Transmits;
use ndpctl_run::{read_source, read_transmits, split_word, two_words};

/// The node that a `node` line starts. It has the usual limits.
#[derive(Drop)]
pub(crate) struct NodeStart {
    pub(crate) role: Role,
    pub(crate) mac: Mac,
    /// The number of solicitations that the node sends for each of its addresses.
    pub(crate) transmits: Transmits,
    /// The source of the node's random words.
    pub(crate) source: Source,
}

/// Returns the Ethernet address that a word spells.
fn read_mac(word: &[u8]) -> Option<Mac>
    ensures found { IfSome result (λ mac. SpellsMac word.now mac.0) }
    ensures only { (mac : Mac) → SpellsMac word.now mac.0 → result ≡ Some mac }
{
    match Mac::parse(word) {
        Ok(mac) => Some(mac),
        Err(_) => None,
    }
}

/// Returns the Ethernet address that the first word of a text spells, and what follows its space.
fn split_mac(text: &[u8]) -> Option<(Mac, &[u8])>
    ensures found { IfSome result (λ parts. Parts text.now (λ word. SpellsMac word parts.0.0) (λ rest. rest ≡ parts.1.now)) }
    ensures only { (mac : Mac) (rest : List ℕ) → Parts text.now (λ word. SpellsMac word mac.0) (λ r. r ≡ rest)
        → IsSomeAnd result (λ parts. (parts.0 ≡ mac) × (parts.1.now ≡ rest)) }
{
    let (word, rest) = split_word(text)?;
    let mac = read_mac(word)?;
    Some((mac, rest))
}

/// Returns what the last words of the line say: a source of random words and, after it, the number of solicitations, which is one if it is
/// left out.
fn read_end(text: &[u8]) -> Option<(Transmits, Source)>
    ensures found { IfSome result (λ end. SpellEnd (words_of text.now) end.0 end.1) }
    ensures only { (transmits : ℕ) (source : Source) → SpellEnd (words_of text.now) transmits source → IsSomeAnd result (λ end. (end.0 ≡ transmits) × (end.1 ≡ source)) }
{
    match split_word(text) {
        None => {
            let source = read_source(text)?;
            Some((Transmits::ONE, source))
        }
        Some(_) => {
            let (word, number) = two_words(text)?;
            let source = read_source(word)?;
            let transmits = read_transmits(number)?;
            Some((transmits, source))
        }
    }
}

/// Returns the node that the words of the line start.
pub(crate) fn read_start(words: &[u8]) -> Option<NodeStart>
    ensures found { IfSome result (λ start. IsStart words.now start.role start.mac start.transmits start.source) }
    ensures only { (role : Role) (mac : Mac) (transmits : ℕ) (source : Source) → IsStart words.now role mac transmits source
        → IsSomeAnd result (λ start. (start.role ≡ role) × (start.mac ≡ mac) × (start.transmits ≡ transmits) × (start.source ≡ source)) }
{
    let (role, rest) = split_role(words)?;
    let (mac, rest) = split_mac(rest)?;
    let (transmits, source) = read_end(rest)?;
    Some(NodeStart {
        role,
        mac,
        transmits,
        source,
    })
}
