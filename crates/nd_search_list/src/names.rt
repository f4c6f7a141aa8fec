ghost use Rattle.std.specs.Prelude.{◌≡◌, ◌+◌, ◌<◌, ℕ, List, MatchOption, IfSome, length, take, drop, true, false};
ghost use Rattle.std.specs.Option.{IsSomeAnd};
ghost use Rattle.nd_search_list.specs.NameRef.{bytes_of, name_of};
ghost use Rattle.nd_search_list.specs.Reading.{are_zeros, name_length};
ghost use Rattle.nd_search_list.specs.Names.{SpellsNames, names_in, rest_in, spells_names};

use crate::name_ref::NameRef;
use crate::reading::{are_zeros, known_length, name_length};

/// The names that some bytes spell, in their order (RFC 8106, section 5.2).
#[derive(Clone, Copy, Debug)]
pub struct Names<'a> {
    rest: &'a [u8],
    /// After the names there are only zeros.
    pub ghost padded: { are_zeros (rest_in rest.now) ≡ true },
}

impl<'a> Names<'a> {
    ghost use Rattle.nd_search_list.specs.NamesLeft.{names_left};

    /// Returns the names in the data of a DNS Search List after its lifetime: at least one name, and then zeros to the end, or nothing (RFC 8106,
    /// section 5.2). Names are not compressed. Returns `None` if a label has another byte than letters, digits, hyphens and underscores or is
    /// longer than 63 bytes, if a name is longer than 255 bytes with its zero byte or is not complete, or if the padding has another byte.
    pub fn read(bytes: &'a [u8]) -> Option<Names<'a>>
        // Names that are returned are spelled by the bytes, and if the bytes spell names, these are returned.
        ensures found { IfSome result (λ n. SpellsNames bytes.entry.now (names_left n)) }
        ensures only { (ns : List (List ℕ)) → SpellsNames bytes.entry.now ns → IsSomeAnd result (λ n. names_left n ≡ ns) }
        // The same by functions.
        ensures exactly { MatchOption result (spells_names bytes.entry.now ≡ false) (λ n. (spells_names bytes.entry.now ≡ true) × (names_left n ≡ names_in bytes.entry.now)) }
    {
        Names::read_exactly(bytes)
    }

    /// Returns the number of names.
    #[tactic(auto, using(crate::proofs::Walk::names_in_step, crate::proofs::Walk::names_in_stop))]
    pub fn len(&self) -> usize
        ensures { result ≡ length (names_left self.now) }
    {
        let mut count = 0;
        let mut rest = self.rest;
        while let Some((_, after)) = split_known(rest) {
            count += 1;
            rest = after;
        }
        count
    }

    /// Returns the same, by the functions that decide it.
    #[tactic(auto, using(crate::proofs::Deciding::fewer_left, crate::proofs::Deciding::all_left))]
    fn read_exactly(bytes: &'a [u8]) -> Option<Names<'a>>
        ensures { MatchOption result (spells_names bytes.entry.now ≡ false) (λ n. (spells_names bytes.entry.now ≡ true) × (names_left n ≡ names_in bytes.entry.now)) }
    {
        let padding = rest_in(bytes);
        if padding.len() < bytes.len() && are_zeros(padding) {
            Some(Names { rest: bytes })
        } else {
            None
        }
    }
}

impl<'a> Iterator for Names<'a> {
    type Item = NameRef<'a>;

    ghost use Rattle.std.specs.Iterator.{YieldsFirstBy, item_count};
    ghost use Rattle.nd_search_list.specs.NamesLeft.{names_left};

    ghost next_gives = { YieldsFirstBy name_of names_left };

    ghost remaining = { item_count names_left };

    #[tactic(auto, using(crate::proofs::Walk::names_in_step, crate::proofs::Walk::names_in_stop))]
    fn next(&mut self) -> Option<NameRef<'a>> {
        let (name, rest) = split_known(self.rest)?;
        self.rest = rest;
        Some(name)
    }
}

/// Returns the first name, and the bytes after its zero byte, if they begin with one.
fn split_name(bytes: &[u8]) -> Option<(NameRef<'_>, &[u8])>
    ensures { MatchOption result (name_length bytes.now ≡ 0) (λ p. (0 < name_length bytes.now)
        × (bytes_of p.0 ≡ take (name_length bytes.now) bytes.now) × (p.1.now ≡ drop (name_length bytes.now + 1) bytes.now) × (length p.1.now < length bytes.now)) }
{
    split_behind(bytes, name_length(bytes))
}

/// Returns the same of bytes that were read before: their labels needn't be looked at again.
fn split_known(bytes: &[u8]) -> Option<(NameRef<'_>, &[u8])>
    requires { are_zeros (rest_in bytes.now) ≡ true }
    ensures { MatchOption result (name_length bytes.now ≡ 0) (λ p. (0 < name_length bytes.now)
        × (bytes_of p.0 ≡ take (name_length bytes.now) bytes.now) × (p.1.now ≡ drop (name_length bytes.now + 1) bytes.now) × (length p.1.now < length bytes.now)) }
{
    split_behind(bytes, known_length(bytes))
}

/// Returns the same. `before`: how many bytes the first name has, before its zero byte.
fn split_behind(bytes: &[u8], before: usize) -> Option<(NameRef<'_>, &[u8])>
    requires value { before ≡ name_length bytes.now }
    requires within { 0 < before → before < length bytes.now }
    ensures { MatchOption result (name_length bytes.now ≡ 0) (λ p. (0 < name_length bytes.now)
        × (bytes_of p.0 ≡ take (name_length bytes.now) bytes.now) × (p.1.now ≡ drop (name_length bytes.now + 1) bytes.now) × (length p.1.now < length bytes.now)) }
{
    if before == 0 {
        return None;
    }
    let (_, rest) = bytes.split_at(before + 1);
    Some((NameRef::new(&bytes[..before]), rest))
}

/// Returns the bytes after the last name.
#[tactic(auto, using(crate::proofs::Walk::rest_in_step, crate::proofs::Walk::rest_in_stop))]
fn rest_in(bytes: &[u8]) -> &[u8]
    ensures { result.now ≡ rest_in bytes.now }
{
    let mut rest = bytes;
    while let Some((_, after)) = split_name(rest) {
        rest = after;
    }
    rest
}
