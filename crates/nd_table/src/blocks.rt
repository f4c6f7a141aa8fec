//! The dates of a table in blocks, so that a date that is added, changed or removed shifts the dates of its block alone. The definitions are in
//! `specs/Blocks.antt`.

ghost use Rattle.std.specs.Prelude.{◌≡◌, ℕ, ◌+◌, ◌-◌, ◌<◌, ◌≤◌, ◌^◌, [], ◌∷◌, true, length, take, drop, slice_get, slice_index_or, None, IfOk, vec_len, vec_capacity};
ghost use Rattle.nd_table.specs.Keyed.{at_key, Rises};
ghost use Rattle.nd_table.specs.Dates.{rank, AllAddresses, has, without, put_date, first_moment};
ghost use Rattle.nd_table.specs.Blocks.{all_of, AllShort, Filled, Kept, BelongsAt, EnoughFor};

use crate::binary_search::search;
use crate::block::{BLOCK, Block};
use crate::date::Date;
use crate::probes::Uncounted;
use crate::ranked::Ranked;
use std::alloc::{AllocError, Allocator};
use std::marker::Model;

/// Blocks of dates: those in use, in the order of their dates, and those in reserve. A block that becomes full is split, and two adjacent ones that
/// wouldn't fill a block are joined.
#[derive(Drop)]
pub struct Blocks<A: Allocator> {
    used: Vec<Block<A>, A>,
    spare: Vec<Block<A>, A>,
}

impl<A: Allocator> Model for Blocks<A> {
    ghost use Rattle.std.specs.Prelude.{◌+◌, ◌≤◌, vec_len, vec_capacity};
    ghost use Rattle.nd_table.specs.Blocks.{Blocked};

    ghost Value = { Blocked };

    ghost view = { λ b. record { blocks = b.used.items; spare = vec_len b.spare } };

    ghost invariant = { λ b. (vec_len b.used + vec_len b.spare ≤ vec_capacity b.used) × (vec_len b.used + vec_len b.spare ≤ vec_capacity b.spare + 1) };
}

impl<A: Allocator + Clone> Blocks<A> {
    /// Returns one empty block in use, and enough in reserve for `room` dates. All memory is reserved here. Returns an error if out of memory.
    pub(crate) fn new(alloc: A, room: usize) -> Result<Self, AllocError>
        ensures none { IfOk result (λ blocks. blocks.blocks ≡ [] ∷ []) }
        ensures room { IfOk result (λ blocks. EnoughFor room blocks) }
    {
        let count = if room < BLOCK {
            0
        } else {
            (room - 1) / BLOCK * 2 + 1
        };
        let mut used = Vec::with_capacity(alloc.clone()?, count + 1)?;
        let mut spare = Vec::with_capacity(alloc.clone()?, count)?;
        for _ in 0..count {
            spare.push(Block::new(alloc.clone()?)?)?;
        }
        used.push(Block::new(alloc)?)?;
        Ok(Blocks { used, spare })
    }
}

impl<A: Allocator> Blocks<A> {
    /// Returns the dates of the first block, which has the first date of all.
    pub(crate) fn front(&self) -> &[Date]
        requires { Kept self.now.blocks }
        ensures moment { first_moment result.now ≡ first_moment (all_of self.now.blocks) }
        ensures first { slice_get result.now 0 ≡ slice_get (all_of self.now.blocks) 0 }
    {
        self.used[0].dates()
    }

    /// Adds a date that isn't in a block. There are enough blocks for one more.
    pub(crate) fn put(&mut self, date: Date)
        requires order { Rises rank (all_of self.old.blocks) }
        requires kept { Kept self.old.blocks }
        requires absent { at_key rank (rank date) (all_of self.old.blocks) ≡ None }
        requires room { EnoughFor (length (all_of self.old.blocks) + 1) self.old }
        ensures dates { all_of self.new.blocks ≡ put_date date (all_of self.old.blocks) }
        ensures kept { Kept self.new.blocks }
        ensures number { length self.new.blocks + self.new.spare ≡ length self.old.blocks + self.old.spare }
    {
        let at = self.find_from_last(date);
        let block = &mut self.used[at];
        let place = block.put(date);
        if block.len() == BLOCK {
            self.split(at, (place + 1).min(BLOCK - 1));
            self.settle_split(at);
        }
    }

    /// Removes a date, if it is in a block.
    pub(crate) fn take(&mut self, date: Date)
        requires order { Rises rank (all_of self.old.blocks) }
        requires addresses { AllAddresses (all_of self.old.blocks) }
        requires address { date.number < 2 ^ 128 }
        requires kept { Kept self.old.blocks }
        ensures dates { all_of self.new.blocks ≡ without date.moment date.number (all_of self.old.blocks) }
        ensures kept { Kept self.new.blocks }
        ensures number { length self.new.blocks + self.new.spare ≡ length self.old.blocks + self.old.spare }
    {
        let at = self.find(date);
        self.take_at(at, date);
    }

    /// Changes a date that is in a block to one that isn't in any. There are enough blocks for all dates. Where both belong in one block, that block
    /// alone is changed.
    pub(crate) fn change(&mut self, old: Date, new: Date)
        requires order { Rises rank (all_of self.old.blocks) }
        requires addresses { AllAddresses (all_of self.old.blocks) }
        requires address { old.number < 2 ^ 128 }
        requires kept { Kept self.old.blocks }
        requires there { has old.moment old.number (all_of self.old.blocks) ≡ true }
        requires absent { at_key rank (rank new) (all_of self.old.blocks) ≡ None }
        requires room { EnoughFor (length (all_of self.old.blocks)) self.old }
        ensures dates { all_of self.new.blocks ≡ put_date new (without old.moment old.number (all_of self.old.blocks)) }
        ensures kept { Kept self.new.blocks }
        ensures number { length self.new.blocks + self.new.spare ≡ length self.old.blocks + self.old.spare }
    {
        let at = self.find(old);
        if self.belongs(at, new) {
            let block = &mut self.used[at];
            block.change(old, new);
        } else {
            self.take_at(at, old);
            self.put(new);
        }
    }

    /// Removes all dates.
    pub(crate) fn clear(&mut self)
        requires { Kept self.old.blocks }
        ensures none { self.new.blocks ≡ [] ∷ [] }
        ensures number { length self.new.blocks + self.new.spare ≡ length self.old.blocks + self.old.spare }
    {
        while self.used.len() > 1 {
            if let Some(block) = self.used.pop() {
                give_back(&mut self.spare, block);
            }
        }
        let block = &mut self.used[0];
        block.clear();
    }

    /// Removes a date from the block where it belongs, if it is in it.
    fn take_at(&mut self, at: usize, date: Date)
        requires order { Rises rank (all_of self.old.blocks) }
        requires addresses { AllAddresses (all_of self.old.blocks) }
        requires address { date.number < 2 ^ 128 }
        requires kept { Kept self.old.blocks }
        requires within { at < length self.old.blocks }
        requires here { BelongsAt (rank date) self.old.blocks at }
        ensures dates { all_of self.new.blocks ≡ without date.moment date.number (all_of self.old.blocks) }
        ensures kept { Kept self.new.blocks }
        ensures number { length self.new.blocks + self.new.spare ≡ length self.old.blocks + self.old.spare }
    {
        let block = &mut self.used[at];
        block.take(date);
        self.settle(at);
    }

    /// Returns true if a date belongs in the block at a place: the block begins no later than it, or is the first, and the next one begins after it.
    fn belongs(&self, at: usize, date: Date) -> bool
        requires order { Rises rank (all_of self.now.blocks) }
        requires kept { Kept self.now.blocks }
        requires within { at < length self.now.blocks }
        ensures { result ≡ true → BelongsAt (rank date) self.now.blocks at }
    {
        if at > 0 && self.used[at].compare(&date).is_gt() {
            return false;
        }
        at + 1 == self.used.len() || self.used[at + 1].compare(&date).is_gt()
    }

    /// Returns the place of the block where a date belongs, which `find` returns. The last block is looked at before the others are searched, since
    /// most new dates are after all others.
    fn find_from_last(&self, date: Date) -> usize
        requires order { Rises rank (all_of self.now.blocks) }
        requires kept { Kept self.now.blocks }
        ensures within { result < length self.now.blocks }
        ensures here { BelongsAt (rank date) self.now.blocks result }
    {
        let last = self.used.len() - 1;
        if last == 0 || self.used[last].compare(&date).is_le() {
            return last;
        }
        self.find(date)
    }

    /// Returns the place of the block where a date belongs: the last one whose first date isn't after it, or else the first.
    fn find(&self, date: Date) -> usize
        requires order { Rises rank (all_of self.now.blocks) }
        requires kept { Kept self.now.blocks }
        ensures within { result < length self.now.blocks }
        ensures here { BelongsAt (rank date) self.now.blocks result }
    {
        if self.used.len() == 1 {
            return 0;
        }
        match search(&self.used, &date, &mut Uncounted) {
            Ok(at) => at,
            Err(0) => 0,
            Err(at) => at - 1,
        }
    }

    /// Splits a full block, which keeps its first `lower` dates. `put` splits it after the new date, so that dates added in their order fill the
    /// blocks, for any dates after them.
    fn split(&mut self, at: usize, lower: usize)
        requires some { 0 < lower }
        requires fewer { lower < BLOCK }
        requires within { at < length self.old.blocks }
        requires full { length (slice_index_or self.old.blocks at []) ≡ BLOCK }
        requires spare { 0 < self.old.spare }
        requires short_before { AllShort (take at self.old.blocks) }
        requires short_behind { AllShort (drop (at + 1) self.old.blocks) }
        ensures dates { all_of self.new.blocks ≡ all_of self.old.blocks }
        ensures short { AllShort self.new.blocks }
        ensures before { take at self.new.blocks ≡ take at self.old.blocks }
        ensures behind { drop (at + 2) self.new.blocks ≡ drop (at + 1) self.old.blocks }
        ensures number { length self.new.blocks + self.new.spare ≡ length self.old.blocks + self.old.spare }
        ensures more { length self.new.blocks ≡ length self.old.blocks + 1 }
    {
        let Some(mut upper) = self.spare.pop() else {
            unreachable!()
        };
        let block = &mut self.used[at];
        block.split_into(lower, &mut upper);
        match self.used.insert(at + 1, upper) {
            Ok(()) => {}
            Err(_) => unreachable!(),
        }
    }

    /// Joins the adjacent blocks that a split at a place has left too short: the two blocks there, the one before them, and the one after.
    fn settle_split(&mut self, at: usize)
        requires within { at < length self.old.blocks }
        requires short { AllShort self.old.blocks }
        requires before { Filled (take at self.old.blocks) }
        requires behind { Filled (drop (at + 2) self.old.blocks) }
        ensures dates { all_of self.new.blocks ≡ all_of self.old.blocks }
        ensures kept { Kept self.new.blocks }
        ensures number { length self.new.blocks + self.new.spare ≡ length self.old.blocks + self.old.spare }
    {
        // A list's length is known to leave room for `at + 2` once it is looked at.
        let _ = &self.used;
        self.join(at + 2);
        self.join(at + 1);
        self.join(at);
    }

    /// Joins the adjacent blocks that the removal of a date has left too short: the block at a place, the one before it, and the one after it.
    fn settle(&mut self, at: usize)
        requires within { at < length self.old.blocks }
        requires short { AllShort self.old.blocks }
        requires before { Filled (take at self.old.blocks) }
        requires behind { Filled (drop (at + 1) self.old.blocks) }
        ensures dates { all_of self.new.blocks ≡ all_of self.old.blocks }
        ensures kept { Kept self.new.blocks }
        ensures number { length self.new.blocks + self.new.spare ≡ length self.old.blocks + self.old.spare }
    {
        // A list's length is known to leave room for `at + 1` once it is looked at.
        let _ = &self.used;
        self.join(at + 1);
        self.join(at);
    }

    /// Joins a block with the one before it, if both exist and wouldn't fill a block.
    fn join(&mut self, next: usize)
        requires short { AllShort self.old.blocks }
        requires behind { Filled (drop next self.old.blocks) }
        ensures dates { all_of self.new.blocks ≡ all_of self.old.blocks }
        ensures short { AllShort self.new.blocks }
        ensures filled { Filled (drop (next - 1) self.new.blocks) }
        ensures before { (n : ℕ) → n ≤ next → Filled (take n self.old.blocks) → Filled (take n self.new.blocks) }
        ensures number { length self.new.blocks + self.new.spare ≡ length self.old.blocks + self.old.spare }
        ensures some { 0 < length self.old.blocks → 0 < length self.new.blocks }
    {
        if next == 0 || next >= self.used.len() {
            return;
        }
        let at = next - 1;
        if self.used[at].len() + self.used[next].len() >= BLOCK {
            return;
        }
        let behind = self.used.remove(next);
        let block = &mut self.used[at];
        block.join(&behind);
        give_back(&mut self.spare, behind);
    }
}

/// Returns a block to the reserve. There is room for it.
fn give_back<A: Allocator>(spare: &mut Vec<Block<A>, A>, block: Block<A>)
    requires { vec_len spare.old < vec_capacity spare.old }
    ensures len { vec_len spare.new ≡ vec_len spare.old + 1 }
    ensures capacity { vec_capacity spare.old ≤ vec_capacity spare.new }
{
    match spare.push(block) {
        Ok(()) => {}
        Err(_) => unreachable!(),
    }
}
