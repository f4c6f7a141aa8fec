ghost use Rattle.std.specs.Prelude.{IsTrue};
ghost use Rattle.nd_search_list.specs.Reading.{is_spelled};

use crate::reading::{are_same, lowers_to};
use std::alloc::{AllocError, Allocator};

/// A name of a search list, with its bytes left in place (RFC 1035, section 3.1).
#[derive(Clone, Copy, Debug)]
pub struct NameRef<'a> {
    bytes: &'a [u8],
    /// They are the labels of a name.
    pub ghost spelled: { IsTrue (is_spelled bytes.now) },
}

impl<'a> NameRef<'a> {
    ghost use Rattle.std.specs.Prelude.{◌≡◌, ◌↔◌, IfOk};
    ghost use Rattle.nd_search_list.specs.Name.{IsSpelled, IsName};
    ghost use Rattle.nd_search_list.specs.NameRef.{bytes_of, name_of};
    ghost use Rattle.nd_search_list.specs.Reading.{lowers_to};

    /// Returns the name with these labels.
    pub(crate) fn new(bytes: &'a [u8]) -> NameRef<'a>
        requires { IsTrue (is_spelled bytes.now) }
        ensures { bytes_of result ≡ bytes.entry.now }
    {
        NameRef { bytes }
    }

    /// Returns a name that is in small letters already.
    pub fn of_name(bytes: &'a [u8]) -> NameRef<'a>
        requires { IsName bytes.now }
        ensures value { name_of result ≡ bytes.entry.now }
        ensures bytes { bytes_of result ≡ bytes.entry.now }
    {
        NameRef::new(bytes)
    }

    /// Returns its labels as they are, each after its length byte, without the zero byte at the end.
    pub fn as_bytes(&self) -> &'a [u8]
        ensures value { result.now ≡ bytes_of self.now }
        ensures spelled { IsSpelled result.now }
    {
        self.bytes
    }

    /// Returns true if it is this name, which is in small letters. Names are compared without regard to case (RFC 1035, section 2.3.3).
    pub fn is(&self, name: &[u8]) -> bool
        ensures { IsTrue result ↔ (name_of self.now ≡ name.now) }
    {
        lowers_to(self.as_bytes(), name)
    }

    /// Returns true if the other one is the same name, without regard to case.
    pub fn is_same_as(&self, other: &NameRef<'_>) -> bool
        ensures { IsTrue result ↔ (name_of self.now ≡ name_of other.now) }
    {
        let bytes = self.as_bytes();
        let others = other.as_bytes();
        are_same(bytes, others)
    }

    /// Returns the name in small letters, each label after its length byte. Returns an error if out of memory.
    pub fn lowered<A: Allocator>(&self, alloc: A) -> Result<Vec<u8, A>, AllocError>
        ensures exact { IfOk result (λ v. v.items ≡ name_of self.now) }
        ensures name { IsName (name_of self.now) }
    {
        let bytes = self.as_bytes();
        let mut name = Vec::with_capacity(alloc, bytes.len())?;
        for byte in bytes {
            name.push(byte.to_ascii_lowercase())?;
        }
        Ok(name)
    }
}
