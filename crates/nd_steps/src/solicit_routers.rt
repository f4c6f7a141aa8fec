//! The Router Solicitations of a host (RFC 4861, section 6.3.7).

ghost use Rattle.std.specs.Prelude.{◌≡◌, ◌≢◌, ◌+◌, ◌<◌, ◌==◌, ◌||◌, ◌^◌, not, Some, true, false};
ghost use Rattle.nd_addr.specs.Number.{number_of};
ghost use Rattle.nd_slaac.specs.View.{falls_of};
ghost use Rattle.nd_table.specs.Moment.{IsMoment};
ghost use Rattle.nd_steps.specs.SolicitRouters.{after_address, next_solicitation};
ghost use Rattle.nd_chronicle.specs.Due.{max_rtr_solicitations};

use nd_addr::{Addr, Role};
use nd_slaac::Due;
use nd_table::compare;
use std::marker::Model;

/// MAX_RTR_SOLICITATIONS (RFC 4861, section 10).
const MAX_RTR_SOLICITATIONS: u64 = 3;

/// RTR_SOLICITATION_INTERVAL, in milliseconds (RFC 4861, section 10).
const RTR_SOLICITATION_INTERVAL: u64 = 4_000;

/// The Router Solicitations of a host (RFC 4861, section 6.3.7).
#[derive(Drop)]
pub struct RouterSolicitations {
    /// The moment at which the link-local address was assigned, in milliseconds.
    assigned: Option<u64>,
    /// The number of solicitations sent.
    sent: u64,
    /// A Router Advertisement of a router was heard (RFC 4861, section 6.3.7).
    heard: bool,
}

impl Model for RouterSolicitations {
    ghost use Rattle.std.specs.Prelude.{◌<◌, ◌≤◌, ◌^◌, MatchOption};
    ghost use Rattle.nd_chronicle.specs.Due.{max_rtr_solicitations};
    ghost use Rattle.nd_steps.specs.SolicitRouters.{Solicitations};

    ghost Value = { Solicitations };

    ghost view = { λ s. record { assigned = s.assigned; sent = s.sent; heard = s.heard } };

    ghost invariant = { λ s. (s.sent ≤ max_rtr_solicitations) × MatchOption s.assigned (Unit {0}) (λ at. at < 2 ^ 62) };
}

impl RouterSolicitations {
    ghost use Rattle.std.specs.Prelude.{None, false};

    /// Returns the state before any solicitation, with the link-local address not yet assigned.
    pub fn new() -> Self
        ensures { result ≡ record { assigned = None; sent = 0; heard = false } }
    {
        RouterSolicitations {
            assigned: None,
            sent: 0,
            heard: false,
        }
    }

    /// Returns the moment at which the next solicitation is due, in milliseconds, if one is: the first when the link-local address is assigned,
    /// each other one an interval later, until a router is heard. A router sends none.
    pub fn next_due(&self, role: Role) -> Option<u64>
        ensures { result ≡ next_solicitation role self.now }
    {
        if role == Role::Router {
            return None;
        }
        if self.sent >= MAX_RTR_SOLICITATIONS {
            return None;
        }
        if self.heard {
            return None;
        }
        let at = self.assigned?;
        Some(at + self.sent * RTR_SOLICITATION_INTERVAL)
    }

    /// Notes that the link-local address is assigned at `now`, in milliseconds.
    fn assigned(&mut self, now: u64)
        requires { IsMoment now }
        ensures { self.new ≡ record self.old { assigned = Some now } }
    {
        self.assigned = Some(now);
    }

    /// Notes what was due at `now`, in milliseconds, for one of the node's own addresses: the first solicitation is sent once the link-local one is
    /// assigned (RFC 4861, section 6.3.7).
    pub fn note_address(&mut self, link_local: Addr, now: u64, due: Due)
        requires { IsMoment now }
        ensures { self.new ≡ after_address (number_of link_local.0) now (falls_of due) self.old }
    {
        match due {
            Due::Assign(addr) => {
                if compare(addr, link_local).is_eq() {
                    self.assigned(now);
                }
            }
            Due::End(_) | Due::Solicit(_) => {}
        }
    }

    /// Takes a Router Advertisement with a lifetime, in seconds. One from a router ends the solicitations; with a lifetime of 0 the sender is no
    /// default router, and they go on (RFC 4861, section 6.3.7).
    pub fn heard_router(&mut self, lifetime: u16)
        ensures { self.new ≡ record self.old { heard = not (lifetime == 0) || self.old.heard } }
    {
        if lifetime != 0 {
            self.heard = true;
        }
    }

    /// Returns true if a solicitation is due at `now`, in milliseconds. It counts as sent then.
    pub fn turn(&mut self, role: Role, now: u64) -> bool
        ensures due { result ≡ true → next_solicitation role self.old ≡ Some now }
        ensures none { result ≡ false → next_solicitation role self.old ≢ Some now }
        ensures sent { result ≡ true → self.new ≡ record self.old { sent = self.old.sent + 1 } }
        ensures fewer { result ≡ true → self.old.sent < max_rtr_solicitations }
        ensures same { result ≡ false → self.new ≡ self.old }
    {
        match self.next_due(role) {
            Some(date) if date == now => {
                self.sent += 1;
                true
            }
            _ => false,
        }
    }
}
