use crate::names_key::NamesKey;
use nd_addr::Prefix;

impl NamesKey<Prefix> for Prefix {
    ghost use Rattle.nd_addr.specs.Same.{same_prefix, prefixes_tell};

    ghost named = { λ p. p };

    ghost same = { same_prefix };

    fn names(&self, key: &Prefix) -> bool {
        key == self
    }

    fn names_same(&self, other: &Prefix) -> bool {
        other == self
    }

    ghost tells = { prefixes_tell };
}
