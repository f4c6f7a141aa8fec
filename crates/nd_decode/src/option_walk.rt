//! Goes over options, one after the other or those of a type. The definitions are in `specs/Pieces.antt` and `specs/OfType.antt`.

ghost use Rattle.std.specs.Prelude.{◌≡◌, None, Some, MatchOption, [], ◌∷◌, ◌<◌, ◌≤◌, length, IfSome};
ghost use Rattle.nd_decode.specs.Option.{IsPiece, option_of};
ghost use Rattle.nd_decode.specs.OptionKept.{view};
ghost use Rattle.nd_decode.specs.OfType.{prefix_said};
ghost use Rattle.nd_decode.specs.Pieces.{options_in};
ghost use Rattle.nd_decode.specs.Whole.{rest_in};

use crate::option_ref::{OPTION_PREFIX_INFORMATION, OptionRef};
use crate::options::Options;
use crate::pieces::split_whole;
use crate::prefix_info::PrefixInfo;
use crate::reading::Reading;

impl<'a> Options<'a> {
    ghost use Rattle.nd_decode.specs.Pieces.{options_left};
    ghost use Rattle.nd_decode.specs.OfType.{from_kind};
    ghost use Rattle.nd_decode.specs.Reading.{options_read};
    ghost use Rattle.nd_decode.specs.Sizes.{sizes};

    /// Returns the options that are these bytes, in which `fault_in` finds no fault.
    pub(crate) fn new(bytes: &'a [u8]) -> Self
        requires { rest_in bytes.now ≡ [] }
        ensures { options_left result ≡ options_in bytes.entry.now }
    {
        Options {
            rest: bytes,
            reading: Reading::as_said(),
        }
    }

    /// Returns the same options, read by `reading` too.
    pub fn read_by(self, reading: Reading) -> Self
        ensures { options_left result ≡ options_read reading (options_left self.entry) }
    {
        Options {
            rest: self.rest,
            reading: self.reading.and(reading),
        }
    }

    /// Returns the number of bytes that the options take: 32 for each Prefix Information, 16 for each DNS server, and some for each search name and
    /// for the others.
    pub fn byte_len(&self) -> usize
        ensures value { result ≡ length self.now.rest.now }
        ensures enough { sizes (options_left self.now) ≤ result }
    {
        self.rest.len()
    }

    /// Returns the next option of type `kind`. Options of other types are skipped; only their type and length are read.
    #[tactic(auto, using(crate::proofs::OfType::from_kind_none))]
    pub fn next_of_type(&mut self, kind: u8) -> Option<OptionRef<'a>>
        ensures value { MatchOption result (from_kind kind (options_left self.old) ≡ []) (λ o. from_kind kind (options_left self.old) ≡ view o ∷ options_left self.new) }
        ensures fewer { IfSome result (λ _. length (options_left self.new) < length (options_left self.old)) }
    {
        while let Some((piece, rest)) = split_whole(self.rest) {
            self.rest = rest;
            if piece[0] == kind {
                return Some(OptionRef::read(piece, self.reading));
            }
        }
        None
    }
}

impl Options<'_> {
    ghost use Rattle.nd_decode.specs.Pieces.{options_left};
    ghost use Rattle.nd_decode.specs.OfType.{first_prefix};

    /// Returns the next Prefix Information (RFC 4861, section 4.6.2). Other options are skipped, and those of its type that are too short or too long,
    /// or whose prefix length is above 128.
    pub fn next_prefix(&mut self) -> Option<PrefixInfo>
        ensures value { MatchOption result (first_prefix (options_left self.old) ≡ None) (λ info. first_prefix (options_left self.old) ≡ Some (info, options_left self.new)) }
        ensures fewer { IfSome result (λ _. length (options_left self.new) < length (options_left self.old)) }
    {
        while let Some((piece, rest)) = split_whole(self.rest) {
            self.rest = rest;
            if let Some(info) = prefix_in(piece) {
                return Some(self.reading.info(info));
            }
        }
        None
    }
}

/// Returns the Prefix Information that a piece spells, if it spells one.
#[tactic(auto, unfolding(crate::specs::Option::option_of, crate::specs::Option::known_of))]
fn prefix_in(piece: &[u8]) -> Option<PrefixInfo>
    requires { IsPiece piece.now }
    ensures { result ≡ prefix_said (option_of piece.now) }
{
    if piece[0] == OPTION_PREFIX_INFORMATION && piece[1] == PrefixInfo::UNITS {
        return PrefixInfo::read(piece);
    }
    None
}

impl<'a> Iterator for Options<'a> {
    type Item = OptionRef<'a>;

    ghost use Rattle.std.specs.Iterator.{YieldsFirstBy, item_count};
    ghost use Rattle.nd_decode.specs.Pieces.{options_left};

    ghost next_gives = { YieldsFirstBy view options_left };

    ghost remaining = { item_count options_left };

    #[tactic(auto, using(crate::proofs::Walk::options_in_step, crate::proofs::Walk::options_in_stop, crate::proofs::ReadOptions::read_first, crate::proofs::ReadOptions::read_none))]
    fn next(&mut self) -> Option<OptionRef<'a>> {
        let (piece, rest) = split_whole(self.rest)?;
        self.rest = rest;
        Some(OptionRef::read(piece, self.reading))
    }
}
