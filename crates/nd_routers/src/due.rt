ghost use Rattle.std.specs.Prelude.{◌≡◌, Some, ◌≢◌, ◌<◌, ℕ, List, IfSome, IfNone, is_some, length};
ghost use Rattle.std.specs.Option.{option_map};
ghost use Rattle.nd_addr.specs.Number.{number_of};
ghost use Rattle.nd_table.specs.Dates.{date_at};
ghost use Rattle.nd_routers.specs.Planned.{key_of, date_of};
ghost use Rattle.nd_table.specs.Announcements.{end_of};
ghost use Rattle.nd_table.specs.Listing.{end_in};

use crate::preferred::forget_preference;
use crate::router::Router;
use crate::router_failures::forget;
use crate::routers::Routers;
use nd_addr::Addr;
use nd_table::{Lasting, compare, has, remove, stands};
use std::alloc::Allocator;

impl<A: Allocator> Routers<A> {
    ghost use Rattle.nd_routers.specs.History.{RouterRow, LeftList, announcements};
    ghost use Rattle.nd_routers.specs.Routers.{same};
    ghost use Rattle.nd_routers.specs.RoutersKept.{Stands, GainsRow, next_end, IsSettled, NoneBefore};
    ghost use Rattle.nd_routers.specs.Due.{FirstDue, NextDue};

    /// Returns the earliest end of a router's lifetime, in milliseconds, or `None` if no lifetime ends.
    pub fn next_due(&self) -> Option<u64>
        ensures value { result ≡ next_end self.now.entries }
        ensures due { (history : List RouterRow) → Stands self.now history → NextDue history result }
    {
        self.dates.next()
    }

    /// Removes the router of the lowest address whose lifetime ends at `now`, in milliseconds, and returns its address (RFC 4861, section
    /// 6.3.5). Returns `None` if no lifetime ends then; the list is unchanged.
    ///
    /// No lifetime may have ended before `now`. A late caller passes what `next_due` returns, until that is in the future.
    pub fn turn(&mut self, now: u64) -> Option<Addr>
        requires { NoneBefore self.old.entries now }
        ensures due { (history : List RouterRow) → Stands self.old history → FirstDue history now (option_map (λ a. number_of a.0) result) }
        ensures gains { IfSome result (λ a. GainsRow self.old self.new (LeftList now (number_of a.0))) }
        ensures fewer { IfSome result (λ _. length self.new.entries < length self.old.entries) }
        ensures limit { self.new.limit ≡ self.old.limit }
        ensures same { IfNone result (self.new ≡ self.old) }
        ensures none { IfNone result (next_end self.old.entries ≢ Some now) }
        ensures later { NoneBefore self.new.entries now }
    {
        let source = self.dates.first_due(now)?;
        self.dates.change(Some(now), None, source);
        remove(&mut self.entries, &source);
        forget_preference(&mut self.preferences, source);
        forget(&mut self.failed, source);
        Some(source)
    }

    /// Removes a router that is no longer one (RFC 4861, section 7.2.5). Returns true if it was in the list. Takes no memory.
    pub fn ended(&mut self, source: Addr) -> bool
        ensures stands { (at : ℕ) → GainsRow self.old self.new (LeftList at (number_of source.0)) }
        ensures by_history { (history : List RouterRow) → Stands self.old history → result ≡ is_some (end_of same (number_of source.0) (announcements history)) }
        ensures listed { result ≡ is_some (end_in same (number_of source.0) self.old.entries) }
        ensures settled { (now : ℕ) → IsSettled self.old.entries now → IsSettled self.new.entries now }
        ensures limit { self.new.limit ≡ self.old.limit }
    {
        let listed = has(&self.entries, &source);
        let was = end_of(&self.entries, source);
        self.dates.change(was, None, source);
        remove(&mut self.entries, &source);
        forget_preference(&mut self.preferences, source);
        forget(&mut self.failed, source);
        listed
    }
}

/// Returns the end of a router's lifetime, if it is in the list and has one.
pub(crate) fn end_of(entries: &[Lasting<Router>], source: Addr) -> Option<u64>
    ensures { result ≡ date_at key_of date_of (number_of source.0) entries.now }
{
    for entry in entries {
        if compare(entry.key.addr(), source).is_eq() {
            return entry.end;
        }
    }
    None
}
