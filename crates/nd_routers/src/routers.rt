ghost use Rattle.std.specs.Prelude.{◌≡◌, ◌≤◌, ℕ, List, [], IfOk, OnOk, OnErr, is_some, length, map};
ghost use Rattle.nd_addr.specs.Number.{number_of};
ghost use Rattle.nd_table.specs.Announcements.{stands};
ghost use Rattle.nd_table.specs.Listing.{end_in, open_at};

use crate::preferred::Preferred;
use crate::router::Router;
use nd_addr::Addr;
use nd_table::{Lasting, Schedule, stands};
use std::alloc::{AllocError, Allocator};
use std::marker::Model;

/// The greatest limit on default routers (our choice).
pub const MAX_ROUTERS: usize = 64;

/// The default routers, in the order in which they entered the list (RFC 4861, section 5.1).
#[derive(Drop)]
pub struct Routers<A: Allocator> {
    pub(crate) entries: Vec<Lasting<Router>, A>,
    /// Their preferences, in the same order.
    pub(crate) preferences: Vec<Preferred, A>,
    /// The dates at which their lifetimes end.
    pub(crate) dates: Schedule<A>,
    /// Those that failed, by their last failures, the oldest first.
    pub(crate) failed: Vec<Router, A>,
    pub(crate) limit: usize,
}

impl<A: Allocator> Model for Routers<A> {
    ghost use Rattle.std.specs.Prelude.{◌≤◌, ◌≡◌, map};
    ghost use Rattle.std.specs.Vec.{vec_len, vec_capacity};
    ghost use Rattle.nd_routers.specs.Routers.{max_routers};
    ghost use Rattle.nd_routers.specs.RoutersKept.{Table, keys};
    ghost use Rattle.nd_routers.specs.Planned.{IsPlanned};

    ghost Value = { Table };

    ghost view = { λ r. record { limit = r.limit; entries = r.entries.items; preferences = r.preferences.items; failed = r.failed.items } };

    ghost invariant = { λ r. (r.limit ≤ max_routers) × (vec_len r.entries ≤ r.limit) × (r.limit ≤ vec_capacity r.entries) × (vec_len r.failed ≤ r.limit) × (r.limit ≤ vec_capacity r.failed) × (r.limit ≤ r.dates.room) × IsPlanned r.entries.items r.dates × (map (λ p. p.router) r.preferences.items ≡ keys r.entries.items) × (r.limit ≤ vec_capacity r.preferences) };
}

impl<A: Allocator + Clone> Routers<A> {
    ghost use Rattle.nd_routers.specs.History.{RouterRow};
    ghost use Rattle.nd_routers.specs.Routers.{max_routers};
    ghost use Rattle.nd_routers.specs.RoutersKept.{Stands, then_left, keys};

    /// Returns an empty list with room for `limit` routers, 1 to 64, all of it reserved here. Returns an error if out of memory.
    pub fn new(alloc: A, limit: usize) -> Result<Self, AllocError>
        requires least { 1 ≤ limit }
        requires most { limit ≤ max_routers }
        ensures empty { IfOk result (λ routers. routers ≡ record { limit = limit; entries = []; preferences = []; failed = [] }) }
        ensures stands { IfOk result (λ routers. Stands routers []) }
    {
        let entries = Vec::with_capacity(alloc.clone()?, limit)?;
        let preferences = Vec::with_capacity(alloc.clone()?, limit)?;
        let dates = Schedule::new(alloc.clone()?, limit)?;
        let failed = Vec::with_capacity(alloc, limit)?;
        Ok(Routers {
            entries,
            preferences,
            dates,
            failed,
            limit,
        })
    }

    /// Removes all routers and returns their addresses, in the order in which they entered the list. Out of memory: nothing has changed.
    pub fn clear(&mut self) -> Result<Vec<Addr, A>, AllocError>
        ensures routers { IfOk result (λ routers. map (λ a. number_of a.0) routers.items ≡ keys self.old.entries) }
        ensures stands { OnOk result ((at : ℕ) (history : List RouterRow) → Stands self.old history → Stands self.new (then_left at (keys self.old.entries) history)) }
        ensures none { OnOk result (self.new ≡ record { limit = self.old.limit; entries = []; preferences = []; failed = [] }) }
        ensures same { OnErr result (self.new ≡ self.old) }
    {
        let routers = addresses(&self.entries)?;
        self.entries.clear();
        self.preferences.clear();
        self.dates.clear();
        self.failed.clear();
        Ok(routers)
    }
}

impl<A: Allocator> Routers<A> {
    ghost use Rattle.nd_routers.specs.History.{RouterRow, announcements};
    ghost use Rattle.nd_routers.specs.Routers.{max_routers, same};
    ghost use Rattle.nd_routers.specs.RoutersKept.{Stands};

    /// Returns true if a router is in the list at `now`, in milliseconds.
    pub fn holds(&self, now: u64, source: Addr) -> bool
        ensures value { result ≡ is_some (end_in same (number_of source.0) (open_at now self.now.entries)) }
        ensures stands { (history : List RouterRow) → Stands self.now history → result ≡ stands same (number_of source.0) (announcements history) now }
    {
        stands(&self.entries, now, &source)
    }

    /// Returns the number of routers whose end `turn` has not reported.
    pub fn len(&self) -> usize
        ensures value { result ≡ length self.now.entries }
        ensures few { result ≤ self.now.limit }
        ensures most { result ≤ max_routers }
    {
        self.entries.len()
    }
}

/// Returns the addresses of the routers.
fn addresses<A: Allocator + Clone>(
    entries: &Vec<Lasting<Router>, A>,
) -> Result<Vec<Addr, A>, AllocError>
    ensures { IfOk result (λ addrs. map (λ a. number_of a.0) addrs.items ≡ map (λ e. e.key) entries.now.items) }
{
    let alloc = entries.allocator().clone()?;
    let mut addrs = Vec::with_capacity(alloc, entries.len())?;
    for entry in entries {
        addrs.push_reserved(entry.key.addr());
    }
    Ok(addrs)
}
