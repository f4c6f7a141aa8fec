//! An address with its lifetimes and the stage of its detection (RFC 4862, sections 5.4 and 5.5.4).

ghost use Rattle.std.specs.Prelude.{◌≡◌, ◌<◌, true, None, Some};
ghost use Rattle.nd_addr.specs.Number.{number_of};
ghost use Rattle.nd_table.specs.Moment.{IsMoment};

use crate::due::Due;
use crate::own_address::OwnAddress;
use crate::shown::ShownAddress;
use crate::stage::Stage;
use crate::state::State;
use crate::transmits::Transmits;
use crate::two_hours::renewed;
use nd_addr::Addr;
use nd_decode::PrefixInfo;
use nd_table::{Addressed, end_time, is_before, time_left};
use std::marker::Model;

/// An address that is known.
#[derive(Drop)]
pub(crate) struct Entry {
    pub(crate) addr: Addr,
    /// The end of its preferred lifetime, in milliseconds, if it has one.
    pub(crate) preferred_end: Option<u64>,
    /// The end of its valid lifetime, in milliseconds, if it has one.
    pub(crate) valid_end: Option<u64>,
    pub(crate) stage: Stage,
    /// True if its lifetimes were set by hand.
    pub(crate) by_hand: bool,
}

impl Model for Entry {
    ghost use Rattle.nd_addr.specs.Number.{number_of};
    ghost use Rattle.nd_slaac.specs.AddressKept.{Address};

    ghost Value = { Address };

    ghost view = { λ e. record { key = number_of e.addr.0; preferred_end = e.preferred_end; valid_end = e.valid_end; stage = e.stage; by_hand = e.by_hand } };
}

impl Addressed for Entry {
    ghost use Rattle.nd_slaac.specs.TableKept.{key_of};

    ghost key = { key_of };

    fn addr(&self) -> Addr {
        self.addr
    }
}

impl Entry {
    ghost use Rattle.nd_slaac.specs.AddressKept.{Address};
    ghost use Rattle.nd_slaac.specs.PrefixOption.{lifetimes_of};
    ghost use Rattle.nd_slaac.specs.Calls.{formed, announced, failed, is_detecting, set_by_hand};
    ghost use Rattle.nd_slaac.specs.Dates.{falls_by, stepped};
    ghost use Rattle.nd_slaac.specs.ShownKept.{seen, state_at};
    ghost use Rattle.nd_slaac.specs.View.{falls_of, seen_in};

    /// Returns the entry of the link-local address, which has no ends (RFC 4862, section 5.3).
    pub(crate) fn link_local(addr: Addr, now: u64, delay: u32, retrans: u32) -> Self
        requires { IsMoment now }
        ensures { result ≡ formed (number_of addr.0) now delay retrans None }
    {
        Entry {
            addr,
            preferred_end: None,
            valid_end: None,
            stage: Stage::begin(now, delay, retrans),
            by_hand: false,
        }
    }

    /// Returns the entry of an address of an announced prefix (RFC 4862, section 5.5.3 d).
    pub(crate) fn formed(addr: Addr, now: u64, info: &PrefixInfo, delay: u32, retrans: u32) -> Self
        requires { IsMoment now }
        ensures { result ≡ formed (number_of addr.0) now delay retrans (Some (lifetimes_of info.now)) }
    {
        Entry {
            addr,
            preferred_end: end_time(now, info.preferred_lifetime),
            valid_end: end_time(now, info.valid_lifetime),
            stage: Stage::begin(now, delay, retrans),
            by_hand: false,
        }
    }

    /// Returns the entry of an address that is given by hand, and was not known (RFC 4862, section 5.4).
    pub(crate) fn by_hand(addr: Addr, now: u64, own: &OwnAddress, retrans: u32) -> Self
        requires { IsMoment now }
        ensures { result ≡ set_by_hand now own.now.lifetimes (formed (number_of addr.0) now 0 retrans (Some own.now.lifetimes)) }
    {
        Entry {
            addr,
            preferred_end: end_time(now, own.preferred_lifetime()),
            valid_end: end_time(now, own.valid_lifetime()),
            stage: Stage::begin(now, 0, retrans),
            by_hand: true,
        }
    }

    /// Returns true if its detection has not ended.
    pub(crate) fn is_detecting(&self) -> bool
        ensures { result ≡ is_detecting self.now.stage }
    {
        matches!(self.stage, Stage::Detecting { .. })
    }

    /// Returns the state at `now`, in milliseconds (RFC 4862, section 2).
    pub(crate) fn state(&self, now: u64) -> State
        ensures { result ≡ state_at now self.now }
    {
        match self.stage {
            Stage::Detecting { .. } => State::Tentative,
            Stage::Failed => State::Duplicate,
            Stage::Passed if is_before(now, self.preferred_end) => State::Preferred,
            Stage::Passed => State::Deprecated,
        }
    }

    /// Returns what is shown of it at `now`, in milliseconds.
    pub(crate) fn shown(&self, now: u64) -> ShownAddress
        ensures { seen_in result ≡ seen now self.now }
    {
        ShownAddress {
            addr: self.addr,
            state: self.state(now),
            preferred_left: time_left(now, self.preferred_end),
            valid_left: time_left(now, self.valid_end),
            by_hand: self.by_hand,
        }
    }

    /// Renews its lifetimes, since its prefix is announced again (RFC 4862, section 5.5.3 e).
    pub(crate) fn announce(&mut self, now: u64, info: &PrefixInfo)
        requires { IsMoment now }
        ensures { self.new ≡ announced now (lifetimes_of info.now) self.old }
    {
        self.preferred_end = end_time(now, info.preferred_lifetime);
        self.valid_end = renewed(now, self.valid_end, info.valid_lifetime);
    }

    /// Sets its lifetimes by hand.
    pub(crate) fn set_by_hand(&mut self, now: u64, own: &OwnAddress)
        requires { IsMoment now }
        ensures { self.new ≡ set_by_hand now own.now.lifetimes self.old }
    {
        self.preferred_end = end_time(now, own.preferred_lifetime());
        self.valid_end = end_time(now, own.valid_lifetime());
        self.by_hand = true;
    }

    /// Fails its detection: another node has the address or tries it (RFC 4862, sections 5.4.3 and 5.4.4).
    pub(crate) fn fail(&mut self)
        ensures { self.new ≡ failed self.old }
    {
        self.stage = Stage::Failed;
    }

    /// Takes the next step of its detection and returns it: a further solicitation, up to `transmits` of them, or the assignment.
    pub(crate) fn step(&mut self, transmits: Transmits, now: u64) -> Due
        requires moment { IsMoment now }
        requires detecting { is_detecting self.old.stage ≡ true }
        ensures entry { self.new ≡ stepped transmits now self.old }
        ensures due { falls_of result ≡ falls_by transmits self.old.key self.old.stage }
    {
        match &mut self.stage {
            Stage::Detecting { sent, retrans, due } if *sent < transmits.number() => {
                *sent += 1;
                *due = now + u64::from(*retrans);
                Due::Solicit(self.addr)
            }
            _ => {
                self.stage = Stage::Passed;
                Due::Assign(self.addr)
            }
        }
    }
}
