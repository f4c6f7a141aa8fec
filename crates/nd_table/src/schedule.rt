//! The dates of a table, in their order: what is due next is looked up and not searched for. The definitions are in `specs/Dates.antt`.

ghost use Rattle.std.specs.Prelude.{◌≡◌, ◌≢◌, ℕ, ◌<◌, ◌≤◌, [], length, slice_get, IfOk, IfSome, IfNone, Some, None};
ghost use Rattle.nd_addr.specs.Number.{number_of};
ghost use Rattle.nd_table.specs.Keyed.{Rises};
ghost use Rattle.nd_table.specs.DueKept.{first_at, is_at, least_date, NotBefore};
ghost use Rattle.nd_table.specs.Dates.{rank, AllAddresses, has, first_moment, AreDates, Redated};

use crate::addressed::Addressed;
use crate::blocks::Blocks;
use crate::date::Date;
use crate::dated::Dated;
use crate::table::find;
use nd_addr::Addr;
use std::alloc::{AllocError, Allocator};
use std::marker::Model;

/// The dates of the entries of a table, in their order, so that what is due next is the first of them. A table keeps it besides its entries, and
/// reports each date of an entry that is added, changed or removed.
#[derive(Drop)]
pub struct Schedule<A: Allocator> {
    blocks: Blocks<A>,
    room: usize,
}

impl<A: Allocator> Model for Schedule<A> {
    ghost use Rattle.nd_table.specs.Dates.{Planned};
    ghost use Rattle.nd_table.specs.Blocks.{all_of, IsPlan};

    ghost Value = { Planned };

    ghost view = { λ s. record { dates = all_of s.blocks.blocks; room = s.room } };

    ghost invariant = { λ s. IsPlan s.room s.blocks };
}

impl<A: Allocator + Clone> Schedule<A> {
    /// Returns an empty schedule with room for `room` dates, all of it reserved here. Returns an error if out of memory.
    pub fn new(alloc: A, room: usize) -> Result<Self, AllocError>
        ensures none { IfOk result (λ schedule. schedule.dates ≡ []) }
        ensures room { IfOk result (λ schedule. room ≤ schedule.room) }
    {
        let blocks = Blocks::new(alloc, room)?;
        Ok(Schedule { blocks, room })
    }
}

impl<A: Allocator> Schedule<A> {
    /// Returns the moment of the first date, in milliseconds.
    pub fn next(&self) -> Option<u64>
        ensures moment { result ≡ first_moment self.now.dates }
        ensures order { Rises rank self.now.dates }
        ensures addresses { AllAddresses self.now.dates }
    {
        match self.blocks.front().first() {
            Some(date) => Some(date.moment()),
            None => None,
        }
    }

    /// Returns the place of the first entry that is due at `now`, in milliseconds. No entry was due before it.
    pub fn first_at<K, E: Addressed + Dated<K>>(&self, entries: &[E], now: u64) -> Option<usize>
        requires order { Rises E.key entries.now }
        requires dates { AreDates E.key E.date self.now.dates entries.now }
        requires none_before { NotBefore now (least_date E.date entries.now) }
        ensures within { IfSome result (λ i. i < length entries.now) }
        ensures found { IfSome result (λ i. first_at E.date now entries.now ≡ slice_get entries.now i) }
        ensures none { IfNone result (first_at E.date now entries.now ≡ None) }
    {
        let Some(addr) = first_due(self.blocks.front(), now) else {
            return None;
        };
        find(entries, addr)
    }

    /// Returns the address of the first date, if that is at `now`, in milliseconds.
    pub fn first_due(&self, now: u64) -> Option<Addr>
        ensures here { IfSome result (λ addr. IfSome (slice_get self.now.dates 0) (λ d. (d.moment ≡ now) × (d.number ≡ number_of addr.0))) }
        ensures some { IfSome result (λ _. first_moment self.now.dates ≡ Some now) }
        ensures none { IfNone result (first_moment self.now.dates ≢ Some now) }
        ensures order { Rises rank self.now.dates }
        ensures addresses { AllAddresses self.now.dates }
    {
        first_due(self.blocks.front(), now)
    }

    /// Changes the date of an address from `was` to `date`, in milliseconds, either of which may be missing. A date that stays is not touched.
    /// There is room for a new one.
    #[inline(always)]
    pub fn change(&mut self, was: Option<u64>, date: Option<u64>, addr: Addr)
        requires was { (moment : ℕ) → has moment (number_of addr.0) self.old.dates ≡ is_at moment was }
        requires room { IfNone was (IfSome date (λ _. Rises rank self.old.dates → length self.old.dates < self.old.room)) }
        ensures dates { Redated (number_of addr.0) date self.old.dates self.new.dates }
        ensures room { self.new.room ≡ self.old.room }
    {
        if was != date {
            self.change_to(was, date, addr);
        }
    }

    /// Changes the date of an address as `change` does, where it doesn't stay.
    fn change_to(&mut self, was: Option<u64>, date: Option<u64>, addr: Addr)
        requires was { (moment : ℕ) → has moment (number_of addr.0) self.old.dates ≡ is_at moment was }
        requires differs { was ≢ date }
        requires room { IfNone was (IfSome date (λ _. Rises rank self.old.dates → length self.old.dates < self.old.room)) }
        ensures dates { Redated (number_of addr.0) date self.old.dates self.new.dates }
        ensures room { self.new.room ≡ self.old.room }
    {
        match (was, date) {
            (None, None) => unreachable!(),
            (None, Some(moment)) => self.blocks.put(Date::new(moment, addr)),
            (Some(moment), None) => self.blocks.take(Date::new(moment, addr)),
            (Some(before), Some(moment)) => {
                let old = Date::new(before, addr);
                let new = Date::new(moment, addr);
                self.blocks.change(old, new);
            }
        }
    }

    /// Removes all dates.
    pub fn clear(&mut self)
        ensures none { self.new.dates ≡ [] }
        ensures room { self.new.room ≡ self.old.room }
    {
        self.blocks.clear();
    }
}

/// Returns the address of the first date, if that is at `now`.
fn first_due(dates: &[Date], now: u64) -> Option<Addr>
    ensures here { IfSome result (λ addr. IfSome (slice_get dates.now 0) (λ d. (d.moment ≡ now) × (d.number ≡ number_of addr.0))) }
    ensures some { IfSome result (λ _. first_moment dates.now ≡ Some now) }
    ensures none { IfNone result (first_moment dates.now ≢ Some now) }
{
    match dates.first() {
        Some(date) if date.moment() == now => Some(date.addr()),
        _ => None,
    }
}
