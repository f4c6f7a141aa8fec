ghost use Rattle.std.specs.Prelude.{◌≡◌, ◌<◌, ◌≤◌, ◌^◌, List, length, Some, true, is_some, None, [], IfOk, OnOk, OnErr, option_map};
ghost use Rattle.nd_table.specs.Moment.{IsMoment};
ghost use Rattle.nd_advertiser.specs.Config.{interval_range};
ghost use Rattle.nd_advertiser.specs.Calls.{has_sent, settings_in, wants_draw, next, prefixes_in};
ghost use Rattle.nd_advertiser.specs.Offers.{max_offers};
ghost use Rattle.nd_advertiser.specs.Overdue.{IsAfter};

use crate::advertising::Advertising;
use crate::config::Config;
use crate::offer::Offer;
use crate::offer_rows::OfferRows;
use crate::offers::{Full, Offers};
use std::alloc::{AllocError, Allocator};
use std::marker::Model;

/// A router's advertising of itself and its link: its settings, and when it sends (RFC 4861, section 6.2). Moments and times are in milliseconds.
#[derive(Drop)]
pub struct Advertiser<A: Allocator> {
    /// The moment at which its link-local address was assigned.
    assigned: Option<u64>,
    /// The moment of its last advertisement.
    last: Option<u64>,
    advertising: Option<Advertising>,
    offers: Offers<A>,
}

impl<A: Allocator> Model for Advertiser<A> {
    ghost use Rattle.std.specs.Prelude.{◌<◌, ◌^◌, IfSome};
    ghost use Rattle.nd_advertiser.specs.Calls.{next};
    ghost use Rattle.nd_advertiser.specs.Overdue.{IsAfter};
    ghost use Rattle.nd_advertiser.specs.Table.{Table};

    ghost Value = { Table };

    ghost view = { λ a. record { assigned = a.assigned; last = a.last; advertising = a.advertising; limit = a.offers.limit; offers = a.offers.offers } };

    // The next advertisement is after the last one.
    ghost invariant = { λ a. IfSome a.last (λ at. at < 2 ^ 62) × IsAfter a.last (next a.assigned a.last a.advertising) };
}

impl<A: Allocator + Copy> Advertiser<A> {
    ghost use Rattle.nd_advertiser.specs.Table.{Stands};

    /// Returns an interface that doesn't advertise (RFC 4861, section 6.2.1, AdvSendAdvertisements), and has no prefixes to advertise yet, with
    /// room for `limit` of them, 1 to 16. Returns an error if out of memory.
    pub fn new(alloc: A, limit: usize) -> Result<Self, AllocError>
        requires least { 1 ≤ limit }
        requires most { limit ≤ max_offers }
        ensures empty { IfOk result (λ advertiser. advertiser ≡ record { assigned = None; last = None; advertising = None; limit = limit; offers = [] }) }
        ensures stands { IfOk result (λ advertiser. Stands advertiser []) }
    {
        Ok(Advertiser {
            assigned: None,
            last: None,
            advertising: None,
            offers: Offers::new(alloc, limit)?,
        })
    }
}

impl<A: Allocator> Advertiser<A> {
    ghost use Rattle.nd_advertiser.specs.History.{Advertises, Assigned, Ceased, Offered, Row, Sent, Solicited};
    ghost use Rattle.nd_advertiser.specs.Advertising.{advertised_by, interval_of, is_on, next_of, tells_its_end, wants_draw_of};
    ghost use Rattle.nd_advertiser.specs.Offers.{answer_to, offers_of, prefixes};
    ghost use Rattle.nd_advertiser.specs.Table.{GainsRow, Stands};

    /// Puts a prefix into those to advertise (RFC 4861, section 6.2.1, AdvPrefixList): a new one at the end, an existing one in its place. Returns
    /// `Full` if it would be one more than the limit. It takes no memory.
    pub fn put(&mut self, offer: Offer) -> Result<(), Full>
        ensures value { result ≡ answer_to self.old.limit offer.prefix (prefixes_in self.old.offers) }
        ensures by_history { (history : List Row) → Stands self.old history → result ≡ answer_to self.old.limit offer.prefix (prefixes history) }
        ensures stands { OnOk result (GainsRow self.old self.new (Offered offer)) }
        ensures limit { self.new.limit ≡ self.old.limit }
        ensures same { OnErr result (self.new ≡ self.old) }
    {
        self.offers.put(offer)
    }

    /// Returns the offers, in the order in which their prefixes were first put.
    pub fn rows(&self) -> OfferRows<'_>
        ensures value { result ≡ self.now.offers }
        ensures by_history { (history : List Row) → Stands self.now history → result ≡ offers_of history }
        ensures few { length result ≤ self.now.limit }
    {
        self.offers.rows()
    }

    /// Returns the number of prefixes offered, at most the limit.
    pub fn offers_len(&self) -> usize
        ensures value { result ≡ length self.now.offers }
        ensures few { result ≤ self.now.limit }
    {
        self.offers.len()
    }

    /// Returns how many prefixes it has room to offer, at most 16.
    pub(crate) fn limit(&self) -> usize
        ensures value { result ≡ self.now.limit }
        ensures most { result ≤ max_offers }
    {
        self.offers.limit()
    }

    /// Begins to advertise with this configuration (RFC 4861, section 6.2.2). If it advertises already, only what it advertises changes, and the
    /// range of what is drawn from now on.
    pub fn begin(&mut self, now: u64, config: Config)
        requires { IsMoment now }
        ensures stands { GainsRow self.old self.new (Advertises now config) }
        ensures limit { self.new.limit ≡ self.old.limit }
    {
        match &mut self.advertising {
            Some(advertising) => advertising.configure(now, config),
            None => self.advertising = Some(Advertising::begin(now, config)),
        }
    }

    /// Notes that its link-local address, from which it advertises, is assigned (RFC 4861, section 4.2).
    pub fn assigned(&mut self, now: u64)
        requires { IsMoment now }
        ensures stands { GainsRow self.old self.new (Assigned now) }
        ensures limit { self.new.limit ≡ self.old.limit }
        ensures last { self.new.last ≡ self.old.last }
    {
        self.assigned = Some(now);
    }

    /// Returns true if it is an advertising interface.
    pub fn is_on(&self) -> bool
        ensures value { result ≡ is_some self.now.advertising }
        ensures by_history { (history : List Row) → Stands self.now history → result ≡ is_on history }
    {
        self.advertising.is_some()
    }

    /// Returns the configuration with which it advertises, if it does.
    pub fn config(&self) -> Option<Config>
        ensures value { result ≡ settings_in self.now.advertising }
        ensures by_history { (history : List Row) → Stands self.now history → result ≡ advertised_by history }
    {
        match &self.advertising {
            Some(advertising) => Some(advertising.config),
            None => None,
        }
    }

    /// Returns the least and the greatest time, in milliseconds, that may be drawn for the next advertisement, if it advertises (RFC 4861, section
    /// 6.2.4).
    pub fn interval(&self) -> Option<(u64, u64)>
        ensures value { result ≡ option_map interval_range (settings_in self.now.advertising) }
        ensures by_history { (history : List Row) → Stands self.now history → result ≡ interval_of history }
    {
        match &self.advertising {
            Some(advertising) => Some(advertising.config.interval()),
            None => None,
        }
    }

    /// Returns true if a Router Solicitation received now must draw an answer delay: an advertisement was sent since it became an advertising
    /// interface, and no answer is planned since the last one (RFC 4861, section 6.2.6).
    pub fn wants_draw(&self) -> bool
        ensures value { result ≡ wants_draw self.now.advertising }
        ensures by_history { (history : List Row) → Stands self.now history → result ≡ wants_draw_of history }
    {
        match &self.advertising {
            Some(advertising) => advertising.wants_draw(),
            None => false,
        }
    }

    /// Takes a Router Solicitation that must be answered, with the delay that was drawn for it, 0 to 500 ms (RFC 4861, sections 6.2.6 and 10,
    /// MAX_RA_DELAY_TIME).
    pub fn heard_rs(&mut self, now: u64, delay: u32)
        requires moment { IsMoment now }
        requires wants { wants_draw self.old.advertising ≡ true }
        ensures stands { GainsRow self.old self.new (Solicited now delay) }
        ensures limit { self.new.limit ≡ self.old.limit }
    {
        if let Some(advertising) = &mut self.advertising {
            advertising.plan(self.last, now, delay);
        }
    }

    /// Returns the moment at which the next advertisement is due, if one is.
    pub fn next_due(&self) -> Option<u64>
        ensures value { result ≡ next self.now.assigned self.now.last self.now.advertising }
        ensures due { (history : List Row) → Stands self.now history → result ≡ next_of history }
        ensures settings { is_some result ≡ true → is_some (settings_in self.now.advertising) ≡ true }
        ensures after { IsAfter self.now.last result }
    {
        match &self.advertising {
            Some(advertising) => advertising.next(self.assigned, self.last),
            None => None,
        }
    }

    /// Notes that an advertisement that is due is sent. The time until the next one was drawn in `interval` (RFC 4861, section 6.2.4).
    pub fn turn(&mut self, now: u64, interval: u32)
        requires moment { IsMoment now }
        requires due { next self.old.assigned self.old.last self.old.advertising ≡ Some now }
        requires positive { 0 < interval }
        ensures stands { GainsRow self.old self.new (Sent now interval) }
        ensures limit { self.new.limit ≡ self.old.limit }
        ensures last { self.new.last ≡ Some now }
    {
        if let Some(advertising) = &mut self.advertising {
            advertising.send(now, interval);
        }
        self.last = Some(now);
    }

    /// Ceases to advertise (RFC 4861, section 6.2.5). Returns true if it has sent an advertisement since it became an advertising interface: the
    /// caller sends a last one now, with a router lifetime of 0.
    pub fn stop(&mut self, now: u64) -> bool
        requires { IsMoment now }
        ensures value { result ≡ has_sent self.old.advertising }
        ensures by_history { (history : List Row) → Stands self.old history → result ≡ tells_its_end history }
        ensures stands { GainsRow self.old self.new (Ceased now) }
        ensures limit { self.new.limit ≡ self.old.limit }
    {
        let tells = match &self.advertising {
            Some(advertising) => advertising.sent != 0,
            None => false,
        };
        if tells {
            self.last = Some(now);
        }
        self.advertising = None;
        tells
    }
}
