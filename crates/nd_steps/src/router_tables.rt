//! What only a router has: its advertising and its static routes. The definitions are in `specs/RouterTables.antt`.

ghost use Rattle.std.specs.Prelude.{◌≡◌, ◌≢◌, ◌≤◌, ◌<◌, List, [], None, Some, IfOk, is_some, option_map, true, false};
ghost use Rattle.nd_addr.specs.Number.{number_of};
ghost use Rattle.nd_table.specs.Moment.{IsMoment};
ghost use Rattle.nd_advertiser.specs.Calls.{settings_in};
ghost use Rattle.nd_advertiser.specs.Contents.{last_contents_of};
ghost use Rattle.nd_advertiser.specs.History.{Row};
ghost use Rattle.nd_advertiser.specs.Offers.{max_offers};
ghost use Rattle.nd_forwarding.specs.Routes.{max_routes};
ghost use Rattle.nd_advertiser.specs.Overdue.{IsAfter};
ghost use Rattle.nd_advertiser.specs.Table as advertising;
ghost use Rattle.nd_compose.specs.Frames.{router_advertisement_frame};
ghost use Rattle.nd_slaac.specs.View.{falls_of};
ghost use Rattle.nd_steps.specs.RouterTables.{Advertises, NotesAddress, Plans, next_advertisement, plans};

use crate::draws::{answer_delay_drawn, interval_drawn};
use nd_addr::{Addr, Mac, Role};
use nd_advertiser::Advertiser;
use nd_compose::FrameRoom;
use nd_forwarding::Routes;
use nd_packet::Packet;
use nd_slaac::Due;
use nd_table::compare;
use rand_core::Rng;
use std::alloc::{AllocError, Allocator};

/// The tables that only a router has. At a host both are empty.
#[derive(Drop)]
pub struct RouterTables<A: Allocator> {
    /// What it advertises, and when (RFC 4861, section 6.2).
    pub advertiser: Advertiser<A>,
    /// Its static routes, and when it made a Redirect (RFC 4861, sections 5.2 and 8.2).
    pub routes: Routes<A>,
}

impl<A: Allocator + Copy> RouterTables<A> {
    /// Returns the tables of an interface that doesn't advertise and has no routes, with room for so many prefixes, 1 to 16, and routes, 1 to 64.
    /// Returns an error if out of memory.
    pub fn new(alloc: A, offers: usize, routes: usize) -> Result<Self, AllocError>
        requires least_offers { 1 ≤ offers }
        requires most_offers { offers ≤ max_offers }
        requires least_routes { 1 ≤ routes }
        requires most_routes { routes ≤ max_routes }
        ensures advertiser { IfOk result (λ tables. tables.advertiser ≡ record { assigned = None; last = None; advertising = None; limit = offers; offers = [] }) }
        ensures routes { IfOk result (λ tables. tables.routes ≡ record { limit = routes; entries = []; redirected = None }) }
    {
        Ok(RouterTables {
            advertiser: Advertiser::new(alloc, offers)?,
            routes: Routes::new(alloc, routes)?,
        })
    }
}

impl<A: Allocator> RouterTables<A> {
    /// Returns the last Router Advertisement of an interface with these addresses, with a router lifetime of 0, if it advertises (RFC 4861, section
    /// 6.2.5). Returns an error if out of memory.
    pub fn last_advertisement(
        &self,
        alloc: A,
        mac: Mac,
        own: Addr,
    ) -> Result<Option<Packet<A>>, AllocError>
        ensures { (history : List Row) → advertising.Stands self.now.advertiser history → IfOk result (λ frame. frame ≡ option_map (router_advertisement_frame mac own) (last_contents_of mac history)) }
    {
        let Some(contents) = self.advertiser.last_contents(mac) else {
            return Ok(None);
        };
        let room = FrameRoom::with_room(alloc, self.advertiser.longest())?;
        let options = contents.options.as_slice();
        let frame = room.router_advertisement(mac, own, &contents.body, options);
        Ok(Some(frame))
    }
}

impl<A: Allocator> RouterTables<A> {
    /// Returns the moment at which the next advertisement is due, in milliseconds, if one is. A host sends none (RFC 4861, section 6.2.4).
    pub fn next_due(&self, role: Role) -> Option<u64>
        ensures value { result ≡ next_advertisement role self.now }
        ensures settings { is_some result ≡ true → is_some (settings_in self.now.advertiser.advertising) ≡ true }
        ensures after { IsAfter self.now.advertiser.last result }
    {
        if role == Role::Host {
            return None;
        }
        self.advertiser.next_due()
    }

    /// Returns true if an advertisement is due at `now`, in milliseconds. It counts as sent then, and the time until the next one is drawn (RFC
    /// 4861, section 6.2.4).
    pub fn turn<R: Rng>(&mut self, role: Role, now: u64, generator: &mut R) -> bool
        requires { IsMoment now }
        ensures due { result ≡ true → next_advertisement role self.old ≡ Some now }
        ensures none { result ≡ false → next_advertisement role self.old ≢ Some now }
        ensures sent { result ≡ true → Advertises now (R.stream generator.old) (R.stream generator.new) self.old self.new }
        ensures same { result ≡ false → self.new ≡ self.old }
        ensures left { result ≡ false → R.stream generator.new ≡ R.stream generator.old }
    {
        match self.next_due(role) {
            Some(date) if date == now => {}
            _ => return false,
        }
        match self.advertiser.config() {
            Some(config) => {
                let interval = interval_drawn(generator, config);
                self.advertiser.turn(now, interval);
                true
            }
            None => unreachable!(),
        }
    }

    /// Notes what was due at `now`, in milliseconds, for one of the node's own addresses: advertisements are sent from the link-local one once it
    /// is assigned (RFC 4861, section 4.2).
    pub fn note_address(&mut self, link_local: Addr, now: u64, due: Due)
        requires { IsMoment now }
        ensures { NotesAddress (number_of link_local.0) now (falls_of due) self.old self.new }
    {
        match due {
            Due::Assign(addr) => {
                if compare(addr, link_local).is_eq() {
                    self.advertiser.assigned(now);
                }
            }
            Due::End(_) | Due::Solicit(_) => {}
        }
    }

    /// Takes a Router Solicitation at `now`, in milliseconds. A router plans the answer to the first one since its last advertisement, after a
    /// delay that is drawn; a host answers none (RFC 4861, section 6.2.6).
    pub fn hear_solicitation<R: Rng>(&mut self, role: Role, now: u64, generator: &mut R)
        requires { IsMoment now }
        ensures { Plans now (plans role self.old) (R.stream generator.old) (R.stream generator.new) self.old self.new }
    {
        if role == Role::Router && self.advertiser.wants_draw() {
            let delay = answer_delay_drawn(generator);
            self.advertiser.heard_rs(now, delay);
        }
    }
}
