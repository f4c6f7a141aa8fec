//! An entry of the neighbour cache (RFC 4861, sections 5.1 and 7.3.2). The definitions are in `specs/EntryKept.antt`.

ghost use Rattle.std.specs.Prelude.{is_some, ◌+◌, ◌<◌, ◌==◌, ◌^◌, ◌≡◌};
ghost use Rattle.std.specs.Option.{option_map};
ghost use Rattle.nd_addr.specs.Number.{number_of};

use crate::unreachability_detection::Probing;
use nd_addr::{Addr, Mac};
use nd_packet::{Packets, Waiting};
use nd_table::{Addressed, Dated};
use std::alloc::Allocator;
use std::marker::Model;
use std::mem;

/// The time for which an entry that is STALE and unused is kept, in milliseconds: a day. Our choice: RFC 4861, section 5.3, leaves it open.
pub(crate) const STALE_LIFETIME: u64 = 86_400_000;

/// An entry of the neighbour cache (RFC 4861, section 5.1).
#[derive(Drop)]
pub struct Entry<A: Allocator> {
    pub(crate) addr: Addr,
    pub(crate) router: bool,
    /// The moment at which something is due, in milliseconds.
    pub(crate) due: u64,
    pub(crate) stage: Stage<A>,
}

/// What is kept of a neighbour besides its address and IsRouter.
#[derive(Drop)]
pub(crate) enum Stage<A: Allocator> {
    /// INCOMPLETE: its link-layer address is being resolved (RFC 4861, section 7.2.2).
    Resolving {
        /// The number of solicitations sent after the first. It stands before `retrans`, so that an entry takes 72 bytes and not 80.
        sent: u8,
        /// A caller waits for the link-layer address.
        wanted: bool,
        /// RetransTimer when it began: the time between two solicitations, in milliseconds.
        retrans: u32,
        waiting: Waiting<A>,
    },
    /// REACHABLE, STALE, DELAY or PROBE: its link-layer address is known.
    Known {
        mac: Mac,
        /// The last evidence was a confirmation.
        confirmed: bool,
        /// The moment until which the confirmation holds, or since which there is none, in milliseconds.
        since: u64,
        /// DELAY or PROBE, after the first use since then.
        probing: Option<Probing>,
    },
}

impl<A: Allocator> Model for Entry<A> {
    ghost use Rattle.nd_addr.specs.Number.{number_of};
    ghost use Rattle.nd_neighbour.specs.EntryKept.{NeighbourEntry};
    ghost use Rattle.nd_neighbour.specs.View.{stage_of};

    ghost Value = { NeighbourEntry };

    ghost view = { λ e. record { key = number_of e.addr.0; router = e.router; due = e.due; stage = stage_of e.stage } };
}

impl<A: Allocator> Addressed for Entry<A> {
    ghost use Rattle.nd_neighbour.specs.TableKept.{address};

    ghost key = { address };

    fn addr(&self) -> Addr {
        self.addr
    }
}

impl<A: Allocator> Dated<()> for Entry<A> {
    ghost use Rattle.nd_neighbour.specs.DueKept.{date_of};

    ghost date = { date_of };

    fn date(&self) -> Option<u64> {
        Some(self.due)
    }
}

impl<A: Allocator> Entry<A> {
    ghost use Rattle.nd_neighbour.specs.EntryKept.{Known, is_reachable, is_wanted, known_mac, waiting_in};
    ghost use Rattle.nd_neighbour.specs.UnreachabilityDetection.{stale_lifetime};

    /// Returns the link-layer address, if it is known.
    pub fn mac(&self) -> Option<Mac>
        ensures { option_map (λ mac. number_of mac.0) result ≡ known_mac self.now.stage }
    {
        match &self.stage {
            Stage::Resolving { .. } => None,
            Stage::Known { mac, .. } => Some(*mac),
        }
    }

    /// Returns true if the link-layer address is known.
    pub fn is_known(&self) -> bool
        ensures { result ≡ is_some (known_mac self.now.stage) }
    {
        match &self.stage {
            Stage::Resolving { .. } => false,
            Stage::Known { .. } => true,
        }
    }

    /// Returns true if a caller waits for the link-layer address.
    pub(crate) fn is_wanted(&self) -> bool
        ensures { result ≡ is_wanted self.now.stage }
    {
        match &self.stage {
            Stage::Resolving { wanted, .. } => *wanted,
            Stage::Known { .. } => false,
        }
    }

    /// Returns IsRouter.
    pub(crate) fn router(&self) -> bool
        ensures { result ≡ self.now.router }
    {
        self.router
    }

    /// Returns true if a confirmation holds (REACHABLE).
    pub(crate) fn is_reachable(&self, now: u64) -> bool
        ensures { result ≡ is_reachable self.now.stage now }
    {
        match &self.stage {
            Stage::Resolving { .. } => false,
            Stage::Known {
                confirmed,
                since,
                ..
            } => *confirmed && now < *since,
        }
    }

    /// Records a link-layer address, which is known from now on. Returns the packets that waited.
    pub(crate) fn learn(&mut self, mac: Mac, confirmed: bool, since: u64) -> Packets<A>
        requires { since < 2 ^ 63 }
        ensures entry { self.new ≡ record self.old { due = since + stale_lifetime; stage = Known (number_of mac.0) confirmed since None } }
        ensures released { result ≡ waiting_in self.old.stage }
    {
        self.due = since + STALE_LIFETIME;
        let known = Stage::Known {
            mac,
            confirmed,
            since,
            probing: None,
        };
        match mem::replace(&mut self.stage, known) {
            Stage::Resolving { waiting, .. } => Packets::of(waiting),
            Stage::Known { .. } => Packets::none(),
        }
    }
}

/// Returns true if two link-layer addresses are the same.
pub(crate) fn is_same_mac(a: Mac, b: Mac) -> bool
    ensures { result ≡ (number_of a.0 == number_of b.0) }
{
    let _a = a.as_bytes();
    let _b = b.as_bytes();
    a == b
}
