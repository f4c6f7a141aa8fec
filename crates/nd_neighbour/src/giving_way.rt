//! The neighbour that fails for one that speaks. The definitions are in `specs/GivingWay.antt`.

ghost use Rattle.std.specs.Prelude.{IfNone, IfSome, List, None, false, is_some, length, true, ℕ, ◌||◌, ◌↔◌, ◌≡◌, ◌≤◌};
ghost use Rattle.std.specs.Option.{option_map};
ghost use Rattle.nd_addr.specs.Number.{number_of};
ghost use Rattle.nd_packet.specs.Waiting.{max_waiting};
ghost use Rattle.nd_table.specs.DueKept.{first_at, least_date};
ghost use Rattle.nd_neighbour.specs.GivingWayKept.{asked_longest, begun};
ghost use Rattle.nd_neighbour.specs.TableKept.{address};

use crate::cache::Cache;
use crate::entry::{Entry, Stage};
use crate::removal::remove;
use nd_addr::Addr;
use nd_packet::Packets;
use nd_table::{Addressed, is_at, lesser};
use std::alloc::Allocator;

impl<A: Allocator> Cache<A> {
    ghost use Rattle.nd_neighbour.specs.GivingWay.{GivesWay, IsFullOfSpeakers};
    ghost use Rattle.nd_neighbour.specs.History.{Cause, Forgot, Row, story};
    ghost use Rattle.nd_neighbour.specs.RoomKept.{has_room};
    ghost use Rattle.nd_neighbour.specs.Story.{waits_of};
    ghost use Rattle.nd_neighbour.specs.TableKept.{GainsRow, Stands, entry_in};

    /// Returns true if there is room at `now`, in milliseconds, for a neighbour that speaks, which may be new: if there is room, or a neighbour that is
    /// INCOMPLETE, which `give_way` removes.
    pub fn has_way(&self, now: u64, addr: Addr) -> bool
        ensures value { result ≡ (has_room self.now.limit now (number_of addr.0) None self.now.entries || is_some (asked_longest self.now.entries)) }
        ensures history { (history : List Row) → Stands self.now.entries history → (result ≡ false) ↔ IsFullOfSpeakers self.now.limit now (number_of addr.0) history }
    {
        self.room(now, addr, None) || asked_longest(&self.entries).is_some()
    }

    /// Makes room at `now`, in milliseconds, for a neighbour that speaks, if there is none: the neighbour fails whose resolution began first, at a tie
    /// that of the lowest address. Returns it with the packets that waited for it. Returns `None` if there is room, or no neighbour is INCOMPLETE; the cache is
    /// unchanged then.
    pub fn give_way(&mut self, now: u64, addr: Addr) -> Option<(Addr, Packets<A>)>
        ensures way { (history : List Row) → Stands self.old.entries history → GivesWay self.old.limit now (number_of addr.0) history (option_map (λ gone. number_of gone.0.0) result) }
        ensures gains { IfSome result (λ gone. (at : ℕ) (cause : Cause) → GainsRow self.old.entries self.new.entries (at, number_of gone.0.0, Forgot cause)) }
        ensures packets { IfSome result (λ gone. (history : List Row) → Stands self.old.entries history → gone.1 ≡ waits_of (story (number_of gone.0.0) history)) }
        ensures few { IfSome result (λ gone. length gone.1 ≤ max_waiting) }
        ensures absent { IfSome result (λ _. entry_in (number_of addr.0) self.new.entries ≡ None) }

        // There is room for the neighbour then, as `has_way` says.
        ensures place { (has_room self.old.limit now (number_of addr.0) None self.old.entries || is_some (asked_longest self.old.entries)) ≡ true → has_room self.new.limit now (number_of addr.0) None self.new.entries ≡ true }
        ensures same { IfNone result (self.new ≡ self.old) }
        ensures limit { self.new.limit ≡ self.old.limit }
        ensures rings { self.new.rings ≡ self.old.rings }
        ensures waiting { self.new.waiting ≡ self.old.waiting }
    {
        if self.room(now, addr, None) {
            return None;
        }
        let gone = asked_longest(&self.entries)?;
        let packets = remove(&mut self.entries, &mut self.dates, gone);
        Some((gone, packets))
    }
}

/// Returns the address of the entry whose resolution began first, at a tie the lowest one, if an entry is INCOMPLETE.
fn asked_longest<A: Allocator>(entries: &[Entry<A>]) -> Option<Addr>
    ensures { option_map (λ addr. number_of addr.0) result ≡ option_map address (asked_longest entries.now) }
{
    let first = first_begun(entries)?;
    begun_at(entries, first)
}

/// Returns the moment at which the first resolution began, in milliseconds, if an entry is INCOMPLETE.
fn first_begun<A: Allocator>(entries: &[Entry<A>]) -> Option<u64>
    ensures { result ≡ least_date begun entries.now }
{
    let mut first = None;
    for entry in entries {
        first = lesser(first, entry.begun());
    }
    first
}

/// Returns the lowest address whose resolution began at `moment`, in milliseconds, if there is one.
fn begun_at<A: Allocator>(entries: &[Entry<A>], moment: u64) -> Option<Addr>
    ensures { option_map (λ addr. number_of addr.0) result ≡ option_map address (first_at begun moment entries.now) }
{
    for entry in entries {
        if is_at(moment, entry.begun()) {
            return Some(entry.addr());
        }
    }
    None
}

impl<A: Allocator> Entry<A> {
    ghost use Rattle.nd_neighbour.specs.GivingWayKept.{begun};

    /// Returns the moment at which its resolution began, in milliseconds, if it is INCOMPLETE: its solicitations are sent a RetransTimer apart, and so is
    /// what is due after the last (RFC 4861, section 7.2.2).
    fn begun(&self) -> Option<u64>
        ensures { result ≡ begun self.now }
    {
        match &self.stage {
            Stage::Resolving { sent, retrans, .. } => {
                let since = (u64::from(*sent) + 1) * u64::from(*retrans);
                Some(self.due.saturating_sub(since))
            }
            Stage::Known { .. } => None,
        }
    }
}
