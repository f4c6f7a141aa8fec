use crate::names_key::NamesKey;
use nd_addr::Addr;

impl NamesKey<Addr> for Addr {
    ghost use Rattle.nd_addr.specs.Same.{same_addr, addrs_tell};

    ghost named = { λ a. a };

    ghost same = { same_addr };

    fn names(&self, key: &Addr) -> bool {
        key == self
    }

    fn names_same(&self, other: &Addr) -> bool {
        other == self
    }

    ghost tells = { addrs_tell };
}
