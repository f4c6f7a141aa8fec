//! The paths that a session remembers: where packets to a destination go within a lease (RFC 4861, sections 5.2 and 7.3.3). The definitions are in
//! `specs/Slots.antt`.

ghost use Rattle.std.specs.Prelude.{◌≡◌, ◌⊎◌, ◌<◌, ◌≤◌, ◌^◌, ◌-◌, Contains, IfOk, IfSome, false, true};

use nd_addr::{Addr, Mac};
use nd_neighbour::Reachability;
use std::alloc::{AllocError, Global};
use std::marker::Model;

/// The number of slots that a destination has.
const WAYS: usize = 4;

/// The last version, at which nothing is remembered.
const LAST_VERSION: u64 = u64::MAX;

/// The fractional part of the golden ratio, times 2^128, as multiplicative hashing takes it (Knuth, The Art of Computer Programming, 6.4).
const GOLDEN: u128 = 0x9e37_79b9_7f4a_7c15_f39c_c060_5ced_c835;

/// Where packets to a destination go, from one moment on up to the end of a lease; both are in milliseconds.
#[derive(Clone, Copy, Debug)]
pub(crate) struct LeasedPath {
    pub(crate) destination: Addr,
    /// The neighbour that they go to, or the destination itself.
    pub(crate) to: Addr,
    pub(crate) mac: Mac,
    /// The state of the neighbour. A multicast destination has none.
    pub(crate) state: Option<Reachability>,
    /// The end of the state REACHABLE, or 0.
    pub(crate) reachable_until: u64,
    pub(crate) from: u64,
    pub(crate) until: u64,
    /// The version at which it was remembered.
    pub(crate) version: u64,
}

/// The paths of the destinations that were asked for, each in one of the slots that its destination has. Those of an earlier version are forgotten.
#[derive(Drop)]
pub struct Paths {
    slots: Vec<LeasedPath, Global>,
    /// The version of the slots.
    version: u64,
    /// The version of all leases. It is another one, since what leaves each lease may move the end of a path that is remembered.
    leases: u64,
}

impl Model for Paths {
    ghost use Rattle.nd_session.specs.Slots.{AreOlder, Slots};

    ghost Value = { Slots };

    ghost view = { λ p. record { paths = p.slots.items; version = p.version; leases = p.leases } };

    ghost invariant = { λ p. AreOlder p.version p.slots.items };
}

impl Paths {
    ghost use Rattle.nd_session.specs.Slots.{AreForgotten, IsRecalled};

    /// Returns as many slots as destinations, or the next lower power of two. Nothing is remembered. Returns an error if out of memory.
    pub(crate) fn new(alloc: Global, destinations: usize) -> Result<Paths, AllocError>
        ensures { IfOk result (λ paths. AreForgotten paths) }
    {
        let none = LeasedPath {
            destination: Addr::UNSPECIFIED,
            to: Addr::UNSPECIFIED,
            mac: Mac([0; 6]),
            state: None,
            reachable_until: 0,
            from: 0,
            until: 0,
            version: 0,
        };
        let slots = vec![in alloc; none; slots_for(destinations)]?;
        Ok(Paths {
            slots,
            version: 1,
            leases: 1,
        })
    }

    /// Returns the version of all leases.
    pub(crate) fn leases(&self) -> u64
        ensures { result ≡ self.now.leases }
    {
        self.leases
    }

    /// Has the version of all leases begin at another number. Only a caller that has given no lease yet may do so.
    pub(crate) fn begin_at(&mut self, version: u64)
        ensures { self.new ≡ record self.old { leases = version } }
    {
        self.leases = version;
    }

    /// Forgets what is remembered; each lease holds.
    fn forget_slots(&mut self)
        ensures forgotten { AreForgotten self.new }
        ensures leases { self.new.leases ≡ self.old.leases }
    {
        if self.version < LAST_VERSION {
            self.version += 1;
        }
    }

    /// The version of all leases grows, unless it is the last one.
    fn grow(&mut self)
        ensures least { self.old.leases ≤ self.new.leases }
        ensures grows { self.old.leases < 2 ^ 64 - 1 → self.old.leases < self.new.leases }
    {
        if self.leases < LAST_VERSION {
            self.leases += 1;
        }
    }

    /// Forgets what is remembered. The version of all leases grows, unless it is the last one.
    pub(crate) fn forget(&mut self)
        ensures forgotten { AreForgotten self.new }
        ensures least { self.old.leases ≤ self.new.leases }
        ensures grows { self.old.leases < 2 ^ 64 - 1 → self.old.leases < self.new.leases }
    {
        self.grow();
        self.forget_slots();
    }

    /// Forgets what is remembered where something has changed.
    pub(crate) fn forget_where(&mut self, changed: bool)
        ensures forgotten { changed ≡ true → AreForgotten self.new }
        ensures kept { changed ≡ false → self.new ≡ self.old }
        ensures least { self.old.leases ≤ self.new.leases }
        ensures grows { changed ≡ true → self.old.leases < 2 ^ 64 - 1 → self.old.leases < self.new.leases }
    {
        if changed {
            self.forget();
        }
    }

    /// Forgets what is remembered. The version of all leases grows unless each of them holds, or it is the last one.
    pub(crate) fn forget_unless(&mut self, holds: bool)
        ensures forgotten { AreForgotten self.new }
        ensures least { self.old.leases ≤ self.new.leases }
        ensures kept { holds ≡ true → self.new.leases ≡ self.old.leases }
        ensures grows { holds ≡ false → self.old.leases < 2 ^ 64 - 1 → self.old.leases < self.new.leases }
    {
        if holds {
            self.forget_slots();
        } else {
            self.forget();
        }
    }

    /// Returns what is remembered of a destination, if `now`, in milliseconds, is within its lease.
    #[inline(always)]
    pub(crate) fn recall(&self, now: u64, destination: Addr) -> Option<LeasedPath>
        ensures { IfSome result (λ path. IsRecalled self.now now destination path) }
    {
        let first = self.slot_of(destination.to_bits());
        for way in 0..WAYS {
            if let Some(path) = self.recall_at(first ^ way, now, destination) {
                return Some(path);
            }
        }
        None
    }

    /// Returns what a slot has of a destination, if `now`, in milliseconds, is within its lease.
    #[inline(always)]
    fn recall_at(&self, slot: usize, now: u64, destination: Addr) -> Option<LeasedPath>
        ensures { IfSome result (λ path. IsRecalled self.now now destination path) }
    {
        nd_addr::laws::addresses_are_told_by_numbers();
        let _bytes = destination.as_bytes();
        let path = self.slots.get(slot)?;
        let _bytes = path.destination.as_bytes();
        if path.version == self.version
            && path.destination.to_bits() == destination.to_bits()
            && path.from <= now
            && now < path.until
        {
            return Some(*path);
        }
        None
    }

    /// Remembers a path in a slot of its destination, and returns it as it is remembered. At the last version nothing is.
    pub(crate) fn remember(&mut self, mut path: LeasedPath) -> Option<LeasedPath>
        ensures version { self.new.version ≡ self.old.version }
        ensures leases { self.new.leases ≡ self.old.leases }
        ensures paths { (p : _) → Contains self.new.paths p → Contains self.old.paths p ⊎ (p ≡ record path { version = self.old.version }) }
        ensures there { IfSome result (λ p. Contains self.new.paths p) }
        ensures value { IfSome result (λ p. p ≡ record path { version = self.old.version }) }
    {
        path.version = self.version;
        let slot = self.free_slot(path.from, path.destination);
        if slot < self.slots.len() && self.version < LAST_VERSION {
            self.slots[slot] = path;
            return Some(path);
        }
        None
    }

    /// Returns the first slot of a destination that has no path of another one at `now`, in milliseconds, or else its first slot.
    fn free_slot(&self, now: u64, destination: Addr) -> usize {
        let first = self.slot_of(destination.to_bits());
        for way in 0..WAYS {
            if !self.has_another(first ^ way, now, destination) {
                return first ^ way;
            }
        }
        first
    }

    /// Returns true if there is no such slot, or if `now`, in milliseconds, is within the lease of another destination that it has.
    fn has_another(&self, slot: usize, now: u64, destination: Addr) -> bool {
        match self.slots.get(slot) {
            Some(path) => {
                path.version == self.version
                    && now < path.until
                    && path.destination.to_bits() != destination.to_bits()
            }
            None => true,
        }
    }

    /// Returns the first slot of a destination, by its number. The upper bits of the product depend on all bits of the address, so that near ones, and those with one
    /// identifier behind several prefixes, have different slots.
    fn slot_of(&self, destination: u128) -> usize {
        let product = destination.wrapping_mul(GOLDEN);
        (product >> 120) as usize & self.slots.len().wrapping_sub(1)
    }
}

/// Returns the greatest power of two that isn't above a number of destinations, 256 at most.
fn slots_for(destinations: usize) -> usize {
    match destinations {
        0..=1 => 1,
        2..=3 => 2,
        4..=7 => 4,
        8..=15 => 8,
        16..=31 => 16,
        32..=63 => 32,
        64..=127 => 64,
        128..=255 => 128,
        _ => 256,
    }
}
