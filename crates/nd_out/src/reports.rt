//! The list of what a node reports, until its caller takes it. The definition is in `specs/Reports.antt`.

ghost use Rattle.std.specs.Prelude.{◌≡◌, ◌+◌, ◌<◌, ◌≤◌, ◌++◌, ◌∷◌, [], drop, is_none, max, min, option_copied, reverse, slice_get, true, vec_capacity, IfOk, IsOk, OnErr, OnOk};
ghost use Rattle.nd_packet.specs.Waiting.{max_waiting};

use crate::out::Out;
use nd_packet::MAX_WAITING;
use std::alloc::{AllocError, Allocator};
use std::marker::Model;

/// What a node reported, with its moment in milliseconds.
pub type Report<A> = (u64, Out<A>);

/// The number of reports for which there is room from the start: the most that a message or a packet reserves, those of the packets that waited and 4
/// more. An event with no more of them takes no memory for them, if all reports were taken before.
const ROOM: usize = MAX_WAITING + 4;

/// The reports of a node, the oldest first, and room for more. A node appends to it, and its caller takes from it. If all were taken, there is room for
/// what one thing that is due reports.
///
/// A report is appended to the back. The front is kept in reverse, so that the oldest report is at its end; when it is empty, a back of more than two
/// reports becomes the front. So what it costs to take a report does not grow with their number.
#[derive(Drop)]
pub struct Reports<A: Allocator> {
    front: Vec<(u64, Out<A>), A>,
    back: Vec<(u64, Out<A>), A>,
}

impl<A: Allocator> Model for Reports<A> {
    ghost use Rattle.std.specs.Prelude.{◌≡◌, ◌-◌, ◌++◌, ◌+◌, ◌≤◌, [], max, reverse, vec_capacity, vec_len};
    ghost use Rattle.nd_packet.specs.Waiting.{max_waiting};
    ghost use Rattle.nd_out.specs.Reports.{Reported};

    ghost Value = { Reported A };

    ghost view = { λ r. record { items = reverse r.front.items ++ r.back.items; free = vec_capacity r.back - vec_len r.back } };

    ghost invariant = { λ r. (max_waiting + 1 ≤ max (vec_capacity r.front) (vec_capacity r.back)) × (r.front.items ≡ [] → r.back.items ≡ [] → vec_capacity r.front ≤ vec_capacity r.back) };
}

impl<A: Allocator + Clone> Reports<A> {
    /// Returns an empty list with room for its first reports. Returns an error if out of memory.
    pub fn new(alloc: A) -> Result<Self, AllocError>
        ensures empty { IfOk result (λ reports. reports.items ≡ []) }
        ensures room { IfOk result (λ reports. max_waiting + 4 ≤ reports.free) }
    {
        Ok(Reports {
            front: Vec::new(alloc.clone()?),
            back: Vec::with_capacity(alloc, ROOM)?,
        })
    }
}

impl<A: Allocator> Reports<A> {
    /// Makes room for `count` more reports. Returns an error if out of memory; the reports are unchanged then.
    pub fn reserve(&mut self, count: usize) -> Result<(), AllocError>
        ensures items { self.new.items ≡ self.old.items }
        ensures room { OnOk result (count ≤ self.new.free) }
        ensures grows { self.old.free ≤ self.new.free }
        ensures ready { count ≤ self.old.free → IsOk result }
    {
        self.back.reserve(count)
    }

    /// Appends a report, for which there is room. It takes no memory.
    pub fn push_reserved(&mut self, report: (u64, Out<A>))
        requires { 0 < self.old.free }
        ensures items { self.new.items ≡ self.old.items ++ report ∷ [] }
        ensures room { self.new.free + 1 ≡ self.old.free }
    {
        self.back.push_reserved(report);
    }

    /// Appends a report. Returns an error if out of memory; the reports are unchanged then.
    pub fn push(&mut self, report: (u64, Out<A>)) -> Result<(), AllocError>
        ensures items { OnOk result (self.new.items ≡ self.old.items ++ report ∷ []) }
        ensures same { OnErr result (self.new.items ≡ self.old.items) }
        ensures room { self.old.free ≤ self.new.free + 1 }
        ensures ready { 0 < self.old.free → IsOk result }
    {
        self.reserve(1)?;
        self.push_reserved(report);
        Ok(())
    }

    /// Returns the allocator.
    pub fn allocator(&self) -> &A {
        self.back.allocator()
    }

    /// Returns true if there are no reports. Then there is room for what one thing that is due reports.
    pub fn is_empty(&self) -> bool
        ensures value { result ≡ is_none (slice_get self.now.items 0) }
        ensures room { result ≡ true → max_waiting + 1 ≤ self.now.free }
    {
        self.front.is_empty() && self.back.is_empty()
    }

    /// Returns the oldest report.
    pub fn oldest(&self) -> Option<&(u64, Out<A>)>
        ensures { option_copied result ≡ slice_get self.now.items 0 }
    {
        match self.front.last() {
            Some(report) => Some(report),
            None => self.back.first(),
        }
    }

    /// Removes all reports.
    pub fn clear(&mut self)
        ensures { self.new.items ≡ [] }
    {
        self.front.clear();
        self.back.clear();
        level(&mut self.front, &mut self.back);
    }

    /// Returns all reports as a list. Returns an error if out of memory.
    pub fn into_list(self) -> Result<Vec<(u64, Out<A>), A>, AllocError>
        ensures { IfOk result (λ list. list.items ≡ self.items) }
    {
        let Reports {
            mut front,
            mut back,
        } = self;
        if front.is_empty() {
            return Ok(back);
        }
        front.reverse();
        front.append(&mut back)?;
        Ok(front)
    }

    /// Removes the oldest report and returns it.
    #[inline(always)]
    pub fn pop_oldest(&mut self) -> Option<(u64, Out<A>)>
        ensures taken { result ≡ slice_get self.old.items 0 }
        ensures rest { self.new.items ≡ drop 1 self.old.items }
    {
        if let Some(report) = self.front.pop() {
            if self.front.is_empty() {
                level(&mut self.front, &mut self.back);
            }
            return Some(report);
        }
        // Mostly a call reports a message, and sends one frame: the second report takes the place of the first.
        match self.back.len() {
            0 => None,
            1 => {
                let report = self.back.pop();
                level(&mut self.front, &mut self.back);
                report
            }
            2 => Some(self.back.swap_remove(0)),
            _ => {
                turn_over(&mut self.front, &mut self.back);
                self.front.pop()
            }
        }
    }
}

/// Makes the part with more room the back, if there are no reports.
#[inline(always)]
fn level<T, A: Allocator>(front: &mut Vec<T, A>, back: &mut Vec<T, A>)
    requires { front.old.items ≡ [] }
    ensures same { (back.old.items ≡ [] → ⊥) → (front.new ≡ front.old) × (back.new ≡ back.old) }
    ensures empty { back.old.items ≡ [] → (front.new.items ≡ []) × (back.new.items ≡ []) × (vec_capacity front.new ≡ min (vec_capacity front.old) (vec_capacity back.old)) × (vec_capacity back.new ≡ max (vec_capacity front.old) (vec_capacity back.old)) }
{
    if back.is_empty() && back.capacity() < front.capacity() {
        std::mem::swap(front, back);
    }
}

/// Makes the back, in reverse, the front, and the front the back.
#[cold]
#[inline(never)]
fn turn_over<T, A: Allocator>(front: &mut Vec<T, A>, back: &mut Vec<T, A>)
    ensures front { front.new.items ≡ reverse back.old.items }
    ensures back { back.new ≡ front.old }
    ensures capacity { vec_capacity front.new ≡ vec_capacity back.old }
{
    std::mem::swap(front, back);
    front.reverse();
}
