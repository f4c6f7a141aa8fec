ghost use Rattle.std.specs.Prelude.{◌≡◌, ◌<◌, ◌↔◌, ◌∷◌, ℕ, List, [], IfOk, IfErr, OnOk, OnErr, IsErr, Some, false, true, not, is_some, ◌==◌};
ghost use Rattle.nd_routers.specs.RouterAdvertisement.{change_of};
ghost use Rattle.nd_addr.specs.Number.{number_of};
ghost use Rattle.nd_table.specs.Announcements.{stands};
ghost use Rattle.nd_table.specs.Listing.{announced, end_in, fits, Lists};
ghost use Rattle.nd_table.specs.declared.lasting.Lasting.{Lasting};
ghost use Rattle.nd_table.specs.Moment.{IsMoment};
ghost use Rattle.nd_routers.specs.Preferences.{with_preference};
ghost use Rattle.nd_routers.specs.Routers.{same};

use crate::due::end_of;
use crate::preferred::{forget_preference, prefer};
use crate::router::Router;
use crate::router_failures::forget;
use crate::routers::Routers;
use nd_addr::{Addr, Preference};
use nd_table::{Limit, TableRefusal, announce, has, has_room};
use std::alloc::Allocator;

/// What a Router Advertisement does to the list of default routers.
#[derive(Clone, Copy, Debug, PartialEq, Eq)]
pub enum Change {
    /// The router enters the list.
    Entered,
    /// It stays, with another end.
    Refreshed,
    /// It leaves the list.
    Removed,
    /// It wasn't in the list and isn't.
    Nothing,
}

impl<A: Allocator> Routers<A> {
    ghost use Rattle.nd_routers.specs.History.{RouterRow, Heard, LeftList, announcements};
    ghost use Rattle.nd_routers.specs.Routers.{same};
    ghost use Rattle.nd_routers.specs.RoutersKept.{Stands, GainsRow, IsSettled};
    ghost use Rattle.nd_routers.specs.RouterAdvertisement.{change_of};

    /// Returns true if there is room for a router that announces itself at `now`, in milliseconds, for a lifetime in seconds: then `heard_ra` isn't
    /// refused. It takes no memory.
    pub fn fits(&self, now: u64, source: Addr, lifetime: u16) -> bool
        ensures value { result ≡ fits same self.now.limit now ((number_of source.0, lifetime) ∷ []) self.now.entries }
        ensures by_history { (history : List RouterRow) (es : List (Lasting ℕ)) → Stands self.now history → Lists same (announcements history) now es
            → result ≡ fits same self.now.limit now ((number_of source.0, lifetime) ∷ []) es }
    {
        has_room(&self.entries, self.limit, now, &source, u32::from(lifetime))
    }

    /// Takes a router that announces itself at `now`, in milliseconds, for a lifetime in seconds, with its preference (RFC 4861, section 6.3.4; RFC
    /// 4191, section 2.2): it enters the list or is refreshed, and a lifetime of 0 removes it, with any preference. Returns `Full` if it is one too
    /// many; the list is unchanged. It takes no memory.
    ///
    /// The end of no router may be overdue: the caller asks `next_due`, and calls `turn` first.
    pub fn heard_ra(
        &mut self,
        now: u64,
        source: Addr,
        lifetime: u16,
        preference: Preference,
    ) -> Result<Change, TableRefusal>
        requires moment { IsMoment now }
        requires settled { IsSettled self.old.entries now }

        ensures stands { OnOk result (GainsRow self.old self.new (Heard now (number_of source.0) lifetime preference)) }
        ensures entries { OnOk result (self.new.entries ≡ announced same now (number_of source.0) lifetime self.old.entries) }
        ensures preferences { OnOk result (not (lifetime == 0) ≡ true → self.new.preferences ≡ with_preference (is_some (end_in same (number_of source.0) self.old.entries)) (number_of source.0) preference self.old.preferences) }
        ensures failed { OnOk result (not (lifetime == 0) ≡ true → self.new.failed ≡ self.old.failed) }
        ensures settled { IsSettled self.new.entries now }
        ensures limit { self.new.limit ≡ self.old.limit }
        ensures change { IfOk result (λ change. (history : List RouterRow) → Stands self.old history
            → change ≡ change_of (stands same (number_of source.0) (announcements history) now) (stands same (number_of source.0) (announcements (Heard now (number_of source.0) lifetime preference ∷ history)) now)) }

        // It is refused exactly if the router is one too many.
        ensures full { IsErr result ↔ (fits same self.old.limit now ((number_of source.0, lifetime) ∷ []) self.old.entries ≡ false) }
        ensures refusal { IfErr result (λ refusal. refusal ≡ TableRefusal.Full Limit.Routers) }
        ensures same { OnErr result (self.new ≡ self.old) }
    {
        if !self.fits(now, source, lifetime) {
            return Err(TableRefusal::Full(Limit::Routers));
        }
        Ok(self.take_ra(now, source, lifetime, preference))
    }

    /// Leaves a router out that announces itself at `now`, in milliseconds, and for which there is no room: the list is what it would be if the router
    /// had left it at once (RFC 4861, section 5.3, leaves open how many routers a host keeps). Nothing changes.
    pub fn leave_out(&self, now: u64, source: Addr, lifetime: u16, preference: Preference)
        requires settled { IsSettled self.now.entries now }
        requires full { fits same self.now.limit now ((number_of source.0, lifetime) ∷ []) self.now.entries ≡ false }

        ensures stands { (history : List RouterRow) → Stands self.now history → Stands self.now (LeftList now (number_of source.0) ∷ Heard now (number_of source.0) lifetime preference ∷ history) }
        ensures lasting { (lifetime == 0) ≡ false }
    {
        // It has no more entries than its limit.
        let _len = self.len();
    }

    /// Does what `heard_ra` does, for a router that fits. It takes no memory.
    pub fn take_ra(
        &mut self,
        now: u64,
        source: Addr,
        lifetime: u16,
        preference: Preference,
    ) -> Change
        requires moment { IsMoment now }
        requires settled { IsSettled self.old.entries now }
        requires fits { fits same self.old.limit now ((number_of source.0, lifetime) ∷ []) self.old.entries ≡ true }

        ensures stands { GainsRow self.old self.new (Heard now (number_of source.0) lifetime preference) }
        ensures entries { self.new.entries ≡ announced same now (number_of source.0) lifetime self.old.entries }
        ensures preferences { not (lifetime == 0) ≡ true → self.new.preferences ≡ with_preference (is_some (end_in same (number_of source.0) self.old.entries)) (number_of source.0) preference self.old.preferences }
        ensures failed { not (lifetime == 0) ≡ true → self.new.failed ≡ self.old.failed }
        ensures settled { IsSettled self.new.entries now }
        ensures limit { self.new.limit ≡ self.old.limit }
        ensures change { (history : List RouterRow) → Stands self.old history
            → result ≡ change_of (stands same (number_of source.0) (announcements history) now) (stands same (number_of source.0) (announcements (Heard now (number_of source.0) lifetime preference ∷ history)) now) }
    {
        let before = has(&self.entries, &source);
        let was = end_of(&self.entries, source);
        announce(
            &mut self.entries,
            now,
            &source,
            Some(Router::of(source)),
            u32::from(lifetime),
        );
        self.dates
            .change(was, end_of(&self.entries, source), source);
        if lifetime == 0 {
            forget_preference(&mut self.preferences, source);
            forget(&mut self.failed, source);
            return change_by(before, false);
        }
        prefer(&mut self.preferences, before, source, preference);
        change_by(before, true)
    }
}

/// Returns what has changed. `before` and `after`: the router was listed before, is listed then.
pub(crate) fn change_by(before: bool, after: bool) -> Change
    ensures { result ≡ change_of before after }
{
    match (before, after) {
        (false, true) => Change::Entered,
        (true, true) => Change::Refreshed,
        (true, false) => Change::Removed,
        (false, false) => Change::Nothing,
    }
}
