ghost use Rattle.std.specs.Prelude.{◌≡◌, [], IfOk, IsOk, length, ◌≤◌, true, false, vec_len, vec_capacity};
ghost use Rattle.nd_search_list.specs.NameRef.{name_of};
ghost use Rattle.nd_table.specs.Listing.{with_room};
ghost use Rattle.nd_table.specs.ListingKept.{entered, enters, announced_all, Distinct};
ghost use Rattle.nd_table.specs.Moment.{IsMoment};
ghost use Rattle.nd_dns.specs.Dns.{max_names};
ghost use Rattle.nd_dns.specs.AnnouncedNames.{same_name};
ghost use Rattle.nd_dns.specs.AnnouncedNamesKept.{names_to_come};

use crate::announced_names::AnnouncedNames;
use crate::dns::MAX_NAMES;
use crate::search_name::SearchName;
use nd_decode::NameRef;
use nd_table::{Lasting, Walk, announce, enters, has_room};
use std::alloc::{AllocError, Allocator};
use std::collections::VecDeque;
use std::marker::Model;

/// The search names that a Router Advertisement adds, in the order in which they enter.
#[derive(Drop)]
pub struct NewNames<A: Allocator> {
    /// The list is made when a name is added: if none is, no memory is asked for.
    names: Option<VecDeque<SearchName<A>, A>>,
}

impl<A: Allocator> Model for NewNames<A> {
    ghost use Rattle.std.specs.Prelude.{ℕ, List, []};
    ghost use Rattle.std.specs.Option.{option_map, unwrap_or};

    ghost Value = { List (List ℕ) };

    ghost view = { λ n. unwrap_or (option_map (λ names. names.items) n.names) [] };
}

impl<A: Allocator> NewNames<A> {
    ghost use Rattle.std.specs.Prelude.{◌≡◌, ◌↔◌, ◌∷◌, [], true, MatchOption};

    /// Returns an empty list, for a message that adds no search name (`Dns::only_refreshes_names`). It takes no memory.
    pub fn none() -> Self
        ensures { result ≡ [] }
    {
        NewNames { names: None }
    }

    /// Returns true if there is no name in it.
    pub(crate) fn is_empty(&self) -> bool
        ensures { result ≡ true ↔ (self.now ≡ []) }
    {
        match &self.names {
            Some(names) => names.is_empty(),
            None => true,
        }
    }

    /// Removes and returns the first name.
    pub(crate) fn next(&mut self) -> Option<SearchName<A>>
        ensures { MatchOption result (self.old ≡ []) (λ name. self.old ≡ name ∷ self.new) }
    {
        match &mut self.names {
            Some(names) => names.pop_front(),
            None => None,
        }
    }
}

impl<A: Allocator + Clone> NewNames<A> {
    ghost use Rattle.std.specs.Prelude.{◌≡◌, ◌++◌, ◌∷◌, [], OnOk};
    ghost use Rattle.nd_search_list.specs.NameRef.{name_of};

    /// Appends a copy of a name. Returns an error if out of memory.
    pub(crate) fn add(&mut self, alloc: &A, name: &NameRef<'_>) -> Result<(), AllocError>
        ensures { OnOk result (self.new ≡ self.old ++ name_of name.now ∷ []) }
    {
        let copy = SearchName::copied(alloc.clone()?, name)?;
        if let Some(names) = &mut self.names {
            names.push_back(copy)?;
            return Ok(());
        }
        let mut names = VecDeque::new(alloc.clone()?);
        names.push_back(copy)?;
        self.names = Some(names);
        Ok(())
    }
}

/// Returns copies of the names that the announcements of a message add for which there is room, in their order. Returns an error if out of memory.
pub(crate) fn copies<A: Allocator + Clone>(
    alloc: &A,
    entries: &[Lasting<SearchName<A>>],
    limit: usize,
    now: u64,
    announced: AnnouncedNames<'_>,
) -> Result<NewNames<A>, AllocError>
    requires distinct { Distinct same_name entries.now }
    requires few { length entries.now ≤ limit }
    requires limit { limit ≤ max_names }
    ensures value { IfOk result (λ names. names ≡ entered same_name now (with_room same_name limit now (names_to_come announced.entry) entries.now) entries.now) }
    ensures quiet { entered same_name now (with_room same_name limit now (names_to_come announced.entry) entries.now) entries.now ≡ [] → IsOk result }
{
    let mut kept = [None; 2 * MAX_NAMES];
    let mut walk = Walk::new(entries, limit, now);
    let mut copies = NewNames::none();
    let mut rest = announced;
    while let Some((name, lifetime)) = rest.next_name() {
        match walk.adds(&mut kept, name, lifetime) {
            Some(true) => copies.add(alloc, &name)?,
            Some(false) | None => {}
        }
    }
    Ok(copies)
}

/// Returns true if an announcement adds its name, of which there is a copy among `copies` then.
fn is_added<A: Allocator>(
    entries: &[Lasting<SearchName<A>>],
    now: u64,
    name: &NameRef<'_>,
    lifetime: u32,
    copies: &NewNames<A>,
) -> bool
    requires { copies.now ≡ [] → enters same_name now (name_of name.now) lifetime entries.now ≡ false }
    ensures { result ≡ enters same_name now (name_of name.now) lifetime entries.now }
{
    // Mostly a message adds no name, and none is looked for.
    !copies.is_empty() && enters(entries, now, name, lifetime)
}

/// Takes the announcements of names of a message in order, but those for which there is no room, with copies of those that enter.
pub(crate) fn announce_names<A: Allocator>(
    entries: &mut Vec<Lasting<SearchName<A>>, A>,
    limit: usize,
    now: u64,
    announced: AnnouncedNames<'_>,
    copies: NewNames<A>,
)
    requires moment { IsMoment now }
    requires few { vec_len entries.old ≤ limit }
    requires room { limit ≤ vec_capacity entries.old }
    requires copied { copies ≡ entered same_name now (with_room same_name limit now (names_to_come announced) entries.old.items) entries.old.items }
    ensures items { entries.new.items ≡ announced_all same_name now (with_room same_name limit now (names_to_come announced.entry) entries.old.items) entries.old.items }
    ensures few { vec_len entries.new ≤ limit }
    ensures capacity { vec_capacity entries.new ≡ vec_capacity entries.old }
{
    let mut rest = announced;
    let mut copies = copies;
    while let Some((name, lifetime)) = rest.next_name() {
        if !has_room(entries, limit, now, &name, lifetime) {
            continue;
        }
        let key = if is_added(entries, now, &name, lifetime, &copies) {
            copies.next()
        } else {
            None
        };
        announce(entries, now, &name, key, lifetime);
    }
}
