//! A moment of an entry, and the order of such dates. The order is `rank` of `specs/Dates.antt`.

ghost use Rattle.std.specs.Prelude.{◌≡◌, ◌<◌, ◌^◌};
ghost use Rattle.nd_addr.specs.Number.{number_of};

use crate::ranked::Ranked;
use nd_addr::Addr;
use std::cmp::Ordering;
use std::marker::Model;

/// A date of an entry: the moment at which something is due for it, in milliseconds, and its address. Dates are ordered by moment, and dates at one
/// moment by address.
#[derive(Clone, Copy)]
pub struct Date {
    moment: u64,
    addr: Addr,
}

impl Model for Date {
    ghost use Rattle.nd_addr.specs.Bytes.{AreBytes};
    ghost use Rattle.std.proofs.Common.{ap};
    ghost use Rattle.nd_addr.specs.Number.{addr_at, number_of};
    ghost use Rattle.nd_addr.specs.declared.addr.Addr.{Addr};
    ghost use Rattle.nd_addr.proofs.Numbered.{addr_back};
    ghost use Rattle.nd_table.specs.Date.{Date};

    ghost Value = { Date };

    ghost view = { λ d. record { moment = d.moment; number = number_of d.addr.0 } };

    ghost invariant = { λ d. AreBytes 16 d.addr.0 };

    ghost inverse = { λ v. record { moment = v.moment; addr = addr_at v.number } };

    ghost inverse_ok = { λ d bytes. ap (λ (addr : Addr). record { moment = d.moment; addr = addr }) (addr_back d.addr bytes) };
}

impl Date {
    /// Returns the date of an address.
    pub(crate) fn new(moment: u64, addr: Addr) -> Self
        ensures moment { result.moment ≡ moment }
        ensures number { result.number ≡ number_of addr.0 }
        ensures address { result.number < 2 ^ 128 }
    {
        let _bytes = addr.as_bytes();
        let _number = addr.to_bits();
        Date { moment, addr }
    }

    /// Returns the moment, in milliseconds.
    pub(crate) fn moment(&self) -> u64
        ensures { result ≡ self.now.moment }
    {
        self.moment
    }

    /// Returns the address.
    pub fn addr(&self) -> Addr
        ensures { number_of result.0 ≡ self.now.number }
    {
        self.addr
    }
}

impl Ranked<Date> for Date {
    ghost use Rattle.nd_table.specs.Dates.{rank};

    ghost key = { rank };

    ghost number = { rank };

    fn compare(&self, sought: &Date) -> Ordering {
        let (number, other) = (self.addr.to_bits(), sought.addr.to_bits());
        match self.moment.cmp(&sought.moment) {
            Ordering::Less => Ordering::Less,
            Ordering::Equal => number.cmp(&other),
            Ordering::Greater => Ordering::Greater,
        }
    }
}
