ghost use Rattle.std.specs.Prelude.{◌≡◌, IfOk};
ghost use Rattle.nd_search_list.specs.Name.{IsName};
ghost use Rattle.nd_search_list.specs.NameRef.{bytes_of, name_of};

use nd_decode::NameRef;
use nd_table::NamesKey;
use std::alloc::{AllocError, Allocator};
use std::marker::Model;

/// A search name that is kept: its labels in small letters, each after its length byte (RFC 1035, section 3.1).
#[derive(Drop)]
pub struct SearchName<A: Allocator> {
    bytes: Vec<u8, A>,
}

impl<A: Allocator> Model for SearchName<A> {
    ghost use Rattle.std.specs.Prelude.{ℕ, List};
    ghost use Rattle.nd_search_list.specs.Name.{IsName};

    ghost Value = { List ℕ };

    ghost view = { λ n. n.bytes.items };

    ghost invariant = { λ n. IsName n.bytes.items };
}

impl<A: Allocator> SearchName<A> {
    /// Returns a copy of a name that was heard, in small letters. Returns an error if out of memory.
    pub(crate) fn copied(alloc: A, name: &NameRef<'_>) -> Result<Self, AllocError>
        ensures { IfOk result (λ n. n ≡ name_of name.now) }
    {
        Ok(SearchName {
            bytes: name.lowered(alloc)?,
        })
    }

    /// Returns the name with its bytes left in place, which also writes its text.
    pub fn as_name(&self) -> NameRef<'_>
        ensures value { name_of result ≡ self.now }
        ensures bytes { bytes_of result ≡ self.now }
        ensures name { IsName self.now }
    {
        NameRef::of_name(&self.bytes)
    }
}

impl<A: Allocator> NamesKey<SearchName<A>> for NameRef<'_> {
    ghost use Rattle.nd_search_list.specs.NameRef.{name_of};
    ghost use Rattle.nd_addr.specs.Same.{bytes_tell};
    ghost use Rattle.nd_dns.specs.AnnouncedNames.{same_name};

    ghost named = { name_of };

    ghost same = { same_name };

    fn names(&self, key: &SearchName<A>) -> bool {
        self.is_same_as(&key.as_name())
    }

    fn names_same(&self, other: &Self) -> bool {
        self.is_same_as(other)
    }

    ghost tells = { bytes_tell };
}
