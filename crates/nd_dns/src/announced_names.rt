ghost use Rattle.std.specs.Prelude.{◌≡◌, [], ◌∷◌, MatchOption};
ghost use Rattle.nd_search_list.specs.NameRef.{name_of};
ghost use Rattle.nd_dns.specs.AnnouncedNamesKept.{at_hand};

use crate::search_name::SearchName;
use nd_decode::{NameRef, Names, OPTION_DNS_SEARCH_LIST, OptionRef, Options};
use nd_table::Announces;
use std::alloc::Allocator;

/// The search names that the options of a Router Advertisement announce, with the lifetimes of their options (RFC 8106, section 5.2).
#[derive(Clone, Copy, Debug)]
pub struct AnnouncedNames<'a> {
    /// What is left of the current option.
    names: Option<Names<'a>>,
    /// Its lifetime, in seconds.
    lifetime: u32,
    /// The options after it.
    options: Options<'a>,
}

impl<'a> AnnouncedNames<'a> {
    ghost use Rattle.nd_decode.specs.Pieces.{options_left};
    ghost use Rattle.nd_dns.specs.AnnouncedNames.{names_told};
    ghost use Rattle.nd_dns.specs.AnnouncedNamesKept.{names_to_come};

    /// Returns the names of these options. The first option is read here: walks that begin with copies of the result don't read it again.
    #[tactic(auto, using(crate::proofs::OfType::names_from))]
    pub fn new(options: Options<'a>) -> Self
        ensures { names_to_come result ≡ names_told (options_left options.entry) }
    {
        let mut rest = options;
        match rest.next_of_type(OPTION_DNS_SEARCH_LIST) {
            Some(OptionRef::Dnssl(lifetime, names)) => AnnouncedNames {
                names: Some(names),
                lifetime,
                options: rest,
            },
            _ => AnnouncedNames {
                names: None,
                lifetime: 0,
                options,
            },
        }
    }

    /// Returns the next name.
    #[tactic(auto, using(crate::proofs::OfType::names_from))]
    pub(crate) fn next_name(&mut self) -> Option<(NameRef<'a>, u32)>
        ensures { MatchOption result (names_to_come self.old ≡ []) (λ p. names_to_come self.old ≡ (name_of p.0, p.1) ∷ names_to_come self.new) }
    {
        if let Some(name) = next_of(&mut self.names) {
            return Some((name, self.lifetime));
        }
        while let Some(option) = self.options.next_of_type(OPTION_DNS_SEARCH_LIST) {
            if let OptionRef::Dnssl(lifetime, names) = option {
                self.lifetime = lifetime;
                self.names = Some(names);
                if let Some(name) = next_of(&mut self.names) {
                    return Some((name, lifetime));
                }
            }
        }
        None
    }
}

impl<'a, A: Allocator> Announces<SearchName<A>, NameRef<'a>> for AnnouncedNames<'a> {
    ghost use Rattle.nd_dns.specs.AnnouncedNamesKept.{names_to_come};

    ghost told = { names_to_come };

    fn next_told(&mut self) -> Option<(NameRef<'a>, u32)> {
        self.next_name()
    }
}

/// Returns the next name of the current option.
fn next_of<'a>(names: &mut Option<Names<'a>>) -> Option<NameRef<'a>>
    ensures { MatchOption result ((at_hand names.old ≡ []) × (at_hand names.new ≡ [])) (λ name. at_hand names.old ≡ name_of name ∷ at_hand names.new) }
{
    match names {
        Some(names) => names.next(),
        None => None,
    }
}
