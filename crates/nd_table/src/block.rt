//! A block of dates: a short run of the dates of a table, in their order.

ghost use Rattle.std.specs.Prelude.{◌≡◌, ◌+◌, ◌-◌, ◌<◌, ◌≤◌, ◌^◌, [], ◌++◌, true, length, None, IfOk};
ghost use Rattle.std.specs.List.{insert, remove};
ghost use Rattle.nd_table.specs.Keyed.{at_key, Rises};
ghost use Rattle.nd_table.specs.KeyedKept.{place_of};
ghost use Rattle.nd_table.specs.Dates.{rank, AllAddresses, has, without, put_date};

use crate::binary_search::search;
use crate::date::Date;
use crate::probes::Uncounted;
use crate::ranked::Ranked;
use nd_addr::Addr;
use std::alloc::{AllocError, Allocator};
use std::cmp::Ordering;
use std::marker::Model;

/// The number of dates for which a block has room: our choice.
pub(crate) const BLOCK: usize = 32;

/// A run of dates, with room for `BLOCK`.
#[derive(Drop)]
pub struct Block<A: Allocator> {
    dates: Vec<Date, A>,
}

impl<A: Allocator> Model for Block<A> {
    ghost use Rattle.std.specs.Prelude.{List, ◌≤◌, vec_capacity};
    ghost use Rattle.nd_table.specs.Date.{Date};
    ghost use Rattle.nd_table.specs.declared.block.TheConstants.{BLOCK};

    ghost Value = { List Date };

    ghost view = { λ b. b.dates.items };

    ghost invariant = { λ b. BLOCK ≤ vec_capacity b.dates };
}

impl<A: Allocator> Block<A> {
    /// Returns an empty block with all its room. Returns an error if out of memory.
    pub(crate) fn new(alloc: A) -> Result<Self, AllocError>
        ensures { IfOk result (λ block. block ≡ []) }
    {
        Ok(Block {
            dates: Vec::with_capacity(alloc, BLOCK)?,
        })
    }

    /// Returns the dates.
    pub(crate) fn dates(&self) -> &[Date]
        ensures { result.now ≡ self.now }
    {
        &self.dates
    }

    /// Returns the number of dates.
    pub(crate) fn len(&self) -> usize
        ensures { result ≡ length self.now }
    {
        self.dates.len()
    }

    /// Adds a date that isn't in the block, and returns its place. There is room for it.
    pub(crate) fn put(&mut self, date: Date) -> usize
        requires order { Rises rank self.old }
        requires absent { at_key rank (rank date) self.old ≡ None }
        requires room { length self.old < BLOCK }
        ensures dates { self.new ≡ put_date date self.old }
        ensures within { result < BLOCK }
    {
        let at = self.place(&date);
        match self.dates.insert(at, date) {
            Ok(()) => at,
            Err(_) => unreachable!(),
        }
    }

    /// Returns the place where a date that isn't in the block belongs. The last date is looked at before the others are searched.
    fn place(&self, date: &Date) -> usize
        requires order { Rises rank self.now }
        requires absent { at_key rank (rank date.now) self.now ≡ None }
        ensures place { result ≡ place_of rank (rank date.now) self.now }
        ensures fits { result ≤ length self.now }
    {
        if let Some(last) = self.dates.last()
            && last.compare(date).is_lt()
        {
            return self.dates.len();
        }
        let Err(at) = search(&self.dates, date, &mut Uncounted) else {
            unreachable!()
        };
        at
    }

    /// Removes a date, if it is in the block.
    pub(crate) fn take(&mut self, date: Date)
        requires order { Rises rank self.old }
        requires addresses { AllAddresses self.old }
        requires address { date.number < 2 ^ 128 }
        ensures { self.new ≡ without date.moment date.number self.old }
    {
        if let Ok(at) = search(&self.dates, &date, &mut Uncounted) {
            let _ = self.dates.remove(at);
        }
    }

    /// Changes a date of the block to one that isn't in it. The dates between the two places are moved by one.
    pub(crate) fn change(&mut self, old: Date, new: Date)
        requires order { Rises rank self.old }
        requires addresses { AllAddresses self.old }
        requires address { old.number < 2 ^ 128 }
        requires there { has old.moment old.number self.old ≡ true }
        requires absent { at_key rank (rank new) self.old ≡ None }
        ensures { self.new ≡ put_date new (without old.moment old.number self.old) }
    {
        let Ok(from) = search(&self.dates, &old, &mut Uncounted) else {
            unreachable!()
        };
        let to = self.place(&new);
        if from < to {
            change_up(&mut self.dates, from, to, new);
        } else {
            change_down(&mut self.dates, from, to, new);
        }
    }

    /// Moves the dates of a full block from place `at` on into `upper`, whose own dates are dropped.
    pub(crate) fn split_into(&mut self, at: usize, upper: &mut Self)
        requires full { length self.old ≡ BLOCK }
        requires within { at < BLOCK }
        ensures dates { self.new ++ upper.new ≡ self.old }
        ensures lower { length self.new ≡ at }
        ensures upper { length upper.new + at ≡ BLOCK }
    {
        upper.dates.clear();
        match upper.dates.extend_from_slice(&self.dates[at..]) {
            Ok(()) => {}
            Err(_) => unreachable!(),
        }
        self.dates.truncate(at);
    }

    /// Appends the dates of the block after this one. There is room for them.
    pub(crate) fn join(&mut self, behind: &Self)
        requires { length self.old + length behind.now ≤ BLOCK }
        ensures { self.new ≡ self.old ++ behind.now }
    {
        match self.dates.extend_from_slice(&behind.dates) {
            Ok(()) => {}
            Err(_) => unreachable!(),
        }
    }

    /// Removes all dates.
    pub(crate) fn clear(&mut self)
        ensures { self.new ≡ [] }
    {
        self.dates.clear();
    }
}

/// Blocks are searched for by their first dates. An empty one comes before all others.
impl<A: Allocator> Ranked<Date> for Block<A> {
    ghost use Rattle.nd_table.specs.Dates.{rank};
    ghost use Rattle.nd_table.specs.Blocks.{first_rank};

    ghost key = { first_rank };

    ghost number = { rank };

    fn compare(&self, sought: &Date) -> Ordering {
        match self.dates.first() {
            Some(first) => first.compare(sought),
            None => Date::new(0, Addr([0; 16])).compare(sought),
        }
    }
}

/// Removes the date at place `from`, and adds one before the date at place `to`, or at the end. Each date between the two places moves down by one place.
fn change_up(dates: &mut [Date], from: usize, to: usize, date: Date)
    requires up { from < to }
    requires within { to ≤ length dates.old }
    ensures { dates.new ≡ insert (remove dates.old from) (to - 1) date }
{
    dates[from..to].rotate_left(1);
    dates[to - 1] = date;
}

/// Removes the date at place `from`, and adds one at place `to`. Each date between the two places moves up by one place.
fn change_down(dates: &mut [Date], from: usize, to: usize, date: Date)
    requires down { to ≤ from }
    requires within { from < length dates.old }
    ensures { dates.new ≡ insert (remove dates.old from) to date }
{
    dates[to..from + 1].rotate_right(1);
    dates[to] = date;
}
