//! The default routers as they are at a moment. The definitions are in `specs/Shown.antt`.

ghost use Rattle.std.specs.Prelude.{◌≡◌, List};
ghost use Rattle.nd_routers.specs.ShownKept.{seen_beside};

use crate::preferred::Preferred;
use crate::router::Router;
use crate::routers::Routers;
use nd_addr::{Addr, Preference};
use nd_table::{Lasting, is_before};
use std::alloc::Allocator;

/// A default router as it is at a moment (RFC 4861, section 5.1).
#[derive(Clone, Copy, Debug, PartialEq, Eq)]
pub struct DefaultRouter {
    pub addr: Addr,
    /// What is left of its lifetime, in milliseconds. `None` would be a lifetime without an end, which no Router Advertisement gives.
    pub left: Option<u64>,
    /// RFC 4191, section 2.2.
    pub preference: Preference,
}

impl<A: Allocator> Routers<A> {
    ghost use Rattle.nd_routers.specs.History.{RouterRow};
    ghost use Rattle.nd_routers.specs.Left.{routers_left};
    ghost use Rattle.nd_routers.specs.RoutersKept.{Stands};
    ghost use Rattle.nd_routers.specs.Shown.{Shows};

    /// Returns the routers in the list as they are at `now`, in milliseconds, in the order in which they entered it. It takes no memory.
    pub fn rows(&self, now: u64) -> DefaultRouters<'_>
        ensures value { routers_left result ≡ seen_beside now self.now.entries self.now.preferences }
        ensures lists { (history : List RouterRow) → Stands self.now history → Shows history now (routers_left result) }
    {
        DefaultRouters::new(&self.entries, &self.preferences, now)
    }
}

/// The default routers as they are at a moment, in the order in which they entered the list.
#[derive(Clone, Copy)]
pub struct DefaultRouters<'a> {
    entries: &'a [Lasting<Router>],
    /// Their preferences, in the same order.
    preferences: &'a [Preferred],
    moment: u64,
}

impl<'a> DefaultRouters<'a> {
    ghost use Rattle.nd_routers.specs.Left.{routers_left};

    /// Returns the routers of these entries, with these preferences, that haven't ended at `moment`, in milliseconds.
    fn new(entries: &'a [Lasting<Router>], preferences: &'a [Preferred], moment: u64) -> Self
        ensures { routers_left result ≡ seen_beside moment entries.entry.now preferences.entry.now }
    {
        DefaultRouters {
            entries,
            preferences,
            moment,
        }
    }
}

impl Iterator for DefaultRouters<'_> {
    type Item = DefaultRouter;

    ghost use Rattle.std.specs.Iterator.{YieldsFirstBy, item_count};
    ghost use Rattle.nd_routers.specs.Left.{routers_left};
    ghost use Rattle.nd_routers.specs.View.{seen_in};

    ghost next_gives = { YieldsFirstBy seen_in routers_left };

    ghost remaining = { item_count routers_left };

    fn next(&mut self) -> Option<DefaultRouter> {
        while let [entry, entries @ ..] = self.entries {
            let [preferred, preferences @ ..] = self.preferences else {
                return None;
            };
            self.entries = entries;
            self.preferences = preferences;
            if is_before(self.moment, entry.end) {
                return Some(DefaultRouter {
                    addr: entry.key.addr(),
                    left: entry.left(self.moment),
                    preference: preferred.preference(),
                });
            }
        }
        None
    }
}
