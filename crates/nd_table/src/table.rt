//! Look-ups in a table that is in the order of its addresses. The definitions are in `specs/Keyed.antt`.

ghost use Rattle.std.specs.Prelude.{◌≡◌, ◌<◌, ◌≤◌, ◌+◌, length, slice_get, IfOk, IfErr, IfSome, IfNone, None, is_some, vec_len, vec_capacity};
ghost use Rattle.std.specs.List.{insert};
ghost use Rattle.nd_addr.specs.Number.{number_of};
ghost use Rattle.nd_table.specs.Keyed.{at_key, Rises};
ghost use Rattle.nd_table.specs.KeyedKept.{place_of};

use crate::addressed::Addressed;
use crate::binary_search::search;
use crate::order::compare;
use crate::probes::Uncounted;
use nd_addr::Addr;
use std::alloc::Allocator;

/// Returns the place of the entry of an address, or the place where it belongs.
pub fn locate<E: Addressed>(entries: &[E], addr: Addr) -> Result<usize, usize>
    requires { Rises E.key entries.now }
    ensures within { IfOk result (λ i. i < length entries.now) }
    ensures found { IfOk result (λ i. at_key E.key (number_of addr.0) entries.now ≡ slice_get entries.now i) }
    ensures absent { IfErr result (λ _. at_key E.key (number_of addr.0) entries.now ≡ None) }
    ensures place { IfErr result (λ i. i ≡ place_of E.key (number_of addr.0) entries.now) }
    ensures fits { IfErr result (λ i. i ≤ length entries.now) }
{
    let number = addr.to_bits();
    search(entries, &number, &mut Uncounted)
}

/// Returns the same, but looks at the entry at place `near` before it searches: the last one that was found, perhaps.
pub fn locate_near<E: Addressed>(entries: &[E], addr: Addr, near: usize) -> Result<usize, usize>
    requires { Rises E.key entries.now }
    ensures within { IfOk result (λ i. i < length entries.now) }
    ensures found { IfOk result (λ i. at_key E.key (number_of addr.0) entries.now ≡ slice_get entries.now i) }
    ensures absent { IfErr result (λ _. at_key E.key (number_of addr.0) entries.now ≡ None) }
    ensures place { IfErr result (λ i. i ≡ place_of E.key (number_of addr.0) entries.now) }
    ensures fits { IfErr result (λ i. i ≤ length entries.now) }
{
    if near < entries.len() && compare(entries[near].addr(), addr).is_eq() {
        return Ok(near);
    }
    locate(entries, addr)
}

/// Returns the place of the entry of an address, if there is one.
pub fn find<E: Addressed>(entries: &[E], addr: Addr) -> Option<usize>
    requires { Rises E.key entries.now }
    ensures within { IfSome result (λ i. i < length entries.now) }
    ensures found { IfSome result (λ i. at_key E.key (number_of addr.0) entries.now ≡ slice_get entries.now i) }
    ensures none { IfNone result (at_key E.key (number_of addr.0) entries.now ≡ None) }
{
    match locate(entries, addr) {
        Ok(i) => Some(i),
        Err(_) => None,
    }
}

/// Returns true if there is an entry of an address.
pub fn holds<E: Addressed>(entries: &[E], addr: Addr) -> bool
    requires { Rises E.key entries.now }
    ensures { result ≡ is_some (at_key E.key (number_of addr.0) entries.now) }
{
    match locate(entries, addr) {
        Ok(_) => true,
        Err(_) => false,
    }
}

/// Puts an entry at the place where it belongs. There is room for it.
pub fn put<E: Addressed + Drop, A: Allocator>(entries: &mut Vec<E, A>, at: usize, entry: E)
    requires place { at ≡ place_of E.key (E.key entry) entries.old.items }
    requires within { at ≤ vec_len entries.old }
    requires room { vec_len entries.old < vec_capacity entries.old }
    ensures items { entries.new.items ≡ insert entries.old.items (place_of E.key (E.key entry) entries.old.items) entry }
    ensures len { vec_len entries.new ≡ vec_len entries.old + 1 }
    ensures capacity { vec_capacity entries.new ≡ vec_capacity entries.old }
{
    match entries.insert(at, entry) {
        Ok(()) => {}
        Err(_) => unreachable!(),
    }
}
