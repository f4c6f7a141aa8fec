//! Neighbours are removed. The definitions are in `specs/Removal.antt`.

ghost use Rattle.std.specs.Prelude.{IfOk, List, OnErr, OnOk, [], length, vec_capacity, vec_len, ℕ, ◌++◌, ◌+◌, ◌≡◌, ◌≤◌};
ghost use Rattle.nd_addr.specs.Number.{number_of};
ghost use Rattle.nd_packet.specs.Waiting.{max_waiting};
ghost use Rattle.nd_neighbour.specs.TableKept.{entry_in, Rises};
ghost use Rattle.nd_neighbour.specs.Planned.{IsPlanned};
ghost use Rattle.nd_neighbour.specs.Removal.{Removes, all_waiting, waiting_at};
ghost use Rattle.nd_neighbour.specs.Rings.{RoomWithin};

use crate::cache::Cache;
use crate::entry::{Entry, Stage};
use nd_addr::Addr;
use nd_packet::{Packet, Packets};
use nd_table::{Dated, Schedule, find};
use std::alloc::{AllocError, Allocator};

impl<A: Allocator> Cache<A> {
    ghost use Rattle.nd_neighbour.specs.History.{Forgot, Removed, Row, story};
    ghost use Rattle.nd_neighbour.specs.Story.{waits_of};
    ghost use Rattle.nd_neighbour.specs.TableKept.{GainsRow, Stands, entry_in};
    ghost use Rattle.nd_neighbour.specs.Removal.{all_waiting, waiting_at};

    /// Removes a neighbour, if it has an entry, and returns the packets that waited for it.
    pub fn forget(&mut self, addr: Addr) -> Packets<A>
        ensures stands { (at : ℕ) → GainsRow self.old.entries self.new.entries (at, number_of addr.0, Forgot Removed) }
        ensures value { result ≡ waiting_at (entry_in (number_of addr.0) self.old.entries) }
        ensures packets { (history : List Row) → Stands self.old.entries history → result ≡ waits_of (story (number_of addr.0) history) }
        ensures limit { self.new.limit ≡ self.old.limit }
        ensures rings { self.new.rings ≡ self.old.rings }
        ensures waiting { self.new.waiting ≡ self.old.waiting }
    {
        remove(&mut self.entries, &mut self.dates, addr)
    }

    /// Returns the number of packets that wait for a neighbour, at most as many as may wait: `heard`, `turn` and `forget` return no more of them.
    pub fn waiting_at(&self, addr: Addr) -> usize
        ensures value { result ≡ length (waiting_at (entry_in (number_of addr.0) self.now.entries)) }
        ensures by_history { (history : List Row) → Stands self.now.entries history → result ≡ length (waits_of (story (number_of addr.0) history)) }
        ensures few { result ≤ max_waiting }
        ensures limit { result ≤ self.now.waiting }
    {
        count_at(&self.entries, addr)
    }

    /// Returns the number of packets that wait.
    pub fn waiting(&self) -> usize
        ensures { result ≡ length (all_waiting self.now.entries) }
    {
        count_waiting(&self.entries)
    }
}

impl<A: Allocator + Clone> Cache<A> {
    ghost use Rattle.nd_neighbour.specs.History.{Row};
    ghost use Rattle.nd_neighbour.specs.TableKept.{Stands};
    ghost use Rattle.nd_neighbour.specs.Removal.{all_waiting, cleared};

    /// Removes all neighbours and returns the packets that waited, in the order of the addresses, the oldest first. Returns an error if out of
    /// memory; nothing has changed then.
    pub fn clear(&mut self) -> Result<Vec<Packet<A>, A>, AllocError>
        ensures stands { OnOk result ((at : ℕ) (history : List Row) → Stands self.old.entries history → Stands self.new.entries (cleared at self.old.entries history)) }
        ensures none { OnOk result (self.new.entries ≡ []) }
        ensures packets { IfOk result (λ packets. packets.items ≡ all_waiting self.old.entries) }
        ensures same { OnErr result (self.new ≡ self.old) }
        ensures limit { self.new.limit ≡ self.old.limit }
        ensures rings { self.new.rings ≡ self.old.rings }
        ensures waiting { self.new.waiting ≡ self.old.waiting }
    {
        let packets = take_all(&mut self.entries)?;
        self.dates.clear();
        Ok(packets)
    }
}

/// Removes an entry, if it exists, and returns the packets that waited for it.
pub(crate) fn remove<A: Allocator>(
    entries: &mut Vec<Entry<A>, A>,
    dates: &mut Schedule<A>,
    addr: Addr,
) -> Packets<A>
    requires planned { IsPlanned entries.old.items dates.old }
    ensures removes { Removes (number_of addr.0) entries.old.items entries.new.items }
    ensures packets { result ≡ waiting_at (entry_in (number_of addr.0) entries.old.items) }
    ensures planned { IsPlanned entries.new.items dates.new }
    ensures room { dates.new.room ≡ dates.old.room }
    ensures len { vec_len entries.new ≤ vec_len entries.old }
    ensures capacity { vec_capacity entries.new ≡ vec_capacity entries.old }
{
    let Some(i) = find(entries, addr) else {
        return Packets::none();
    };
    let entry = entries.remove(i);
    dates.change(entry.date(), None, addr);
    entry.packets()
}

/// Returns the number of packets that wait for a neighbour, which may have no entry.
fn count_at<A: Allocator>(entries: &[Entry<A>], addr: Addr) -> usize
    requires { Rises entries.now }
    ensures few { result ≤ max_waiting }
    ensures limit { (room : ℕ) → RoomWithin room entries.now → result ≤ room }
    ensures value { result ≡ length (waiting_at (entry_in (number_of addr.0) entries.now)) }
{
    match find(entries, addr) {
        Some(i) => entries[i].waiting(),
        None => 0,
    }
}

/// Returns the number of packets that wait.
pub(crate) fn count_waiting<A: Allocator>(entries: &[Entry<A>]) -> usize
    ensures { result ≡ length (all_waiting entries.now) }
{
    let mut count = 0;
    for entry in entries {
        count += entry.waiting();
    }
    count
}

/// Moves packets to the end of a list. There is room for them.
fn move_all<A: Allocator>(mut from: Packets<A>, to: &mut Vec<Packet<A>, A>)
    requires { vec_len to.old + length from ≤ vec_capacity to.old }
    ensures items { to.new.items ≡ to.old.items ++ from }
    ensures len { vec_len to.new ≡ vec_len to.old + length from }
    ensures capacity { vec_capacity to.new ≡ vec_capacity to.old }
{
    while let Some(packet) = from.take() {
        to.push_reserved(packet);
    }
}

/// Removes all entries and returns the packets that waited, in the order of the addresses, the oldest first.
pub(crate) fn take_all<A: Allocator + Clone>(
    entries: &mut Vec<Entry<A>, A>,
) -> Result<Vec<Packet<A>, A>, AllocError>
    ensures none { OnOk result (entries.new.items ≡ []) }
    ensures packets { IfOk result (λ packets. packets.items ≡ all_waiting entries.old.items) }
    ensures same { OnErr result (entries.new.items ≡ entries.old.items) }
    ensures len { vec_len entries.new ≤ vec_len entries.old }
    ensures capacity { vec_capacity entries.new ≡ vec_capacity entries.old }
{
    let alloc = entries.allocator().clone()?;
    let mut packets = Vec::with_capacity(alloc, count_waiting(entries))?;
    while !entries.is_empty() {
        let entry = entries.remove(0);
        move_all(entry.packets(), &mut packets);
    }
    Ok(packets)
}

impl<A: Allocator> Entry<A> {
    ghost use Rattle.nd_neighbour.specs.EntryKept.{waiting_in};
    ghost use Rattle.nd_neighbour.specs.Rings.{room_of};

    /// Returns the packets that wait at an entry that is removed. Packets wait in INCOMPLETE alone (RFC 4861, section 7.2.2).
    pub(crate) fn packets(self) -> Packets<A>
        ensures { result ≡ waiting_in self.stage }
    {
        match self.stage {
            Stage::Resolving { waiting, .. } => Packets::of(waiting),
            Stage::Known { .. } => Packets::none(),
        }
    }

    /// Returns the number of packets that wait.
    pub(crate) fn waiting(&self) -> usize
        ensures value { result ≡ length (waiting_in self.now.stage) }
        ensures few { result ≤ max_waiting }
        ensures room { result ≤ room_of self.now.stage }
    {
        match &self.stage {
            Stage::Resolving { waiting, .. } => waiting.len(),
            Stage::Known { .. } => 0,
        }
    }
}
