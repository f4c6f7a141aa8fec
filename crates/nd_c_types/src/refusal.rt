//! The status of an event that was refused. The definitions are in `specs/Refusal.antt`.

ghost use Rattle.std.specs.Prelude.{◌≡◌, ◌≤◌};
ghost use Rattle.nd_out.specs.Out.{limit_of, refusal_of};
ghost use Rattle.nd_c_types.specs.Refusal.{full_number, limit_in, limit_number, refusal_in, refusal_number, refused};

use crate::header::{
    LIMIT_ADDRESSES, LIMIT_NAMES, LIMIT_NEIGHBOURS, LIMIT_OFFERS, LIMIT_PREFIXES, LIMIT_ROUTERS,
    LIMIT_SERVERS, LIMIT_STATIC_ROUTES, REFUSAL_DISABLED, REFUSAL_FULL, REFUSAL_NOT_OURS,
    REFUSAL_TENTATIVE, REFUSAL_TOO_LONG, REFUSAL_WRONG_ROLE,
};
use nd_out::{Limit, Refusal};

/// By how much the statuses of two refusals differ whose numbers differ by 1. The limits are below.
const STEP: u32 = 16;

/// Returns the status of an event that was refused: below -15.
pub fn refused(why: &Refusal) -> i32
    ensures { result ≡ refused (refusal_of why.now) }
{
    -((STEP * refusal_number(why) + full_number(why)) as i32)
}

/// Returns the number of the reason that a status has, or 0.
pub fn refusal_in(status: i32) -> u32
    ensures { result ≡ refusal_in status }
{
    if status < 0 {
        status.unsigned_abs() / STEP
    } else {
        0
    }
}

/// Returns the number of the limit that a status has, or 0.
pub fn limit_in(status: i32) -> u32
    ensures { result ≡ limit_in status }
{
    if status < 0 && status.unsigned_abs() >= STEP {
        status.unsigned_abs() % STEP
    } else {
        0
    }
}

/// Returns the number of the reason why an event was refused.
pub(crate) fn refusal_number(why: &Refusal) -> u32
    ensures value { result ≡ refusal_number (refusal_of why.now) }
    ensures first { 1 ≤ result }
    ensures few { result ≤ 8 }
{
    match why {
        Refusal::WrongRole => REFUSAL_WRONG_ROLE,
        Refusal::Disabled => REFUSAL_DISABLED,
        Refusal::Tentative => REFUSAL_TENTATIVE,
        Refusal::NotOurs(_) => REFUSAL_NOT_OURS,
        Refusal::TooLong => REFUSAL_TOO_LONG,
        Refusal::Full(_) => REFUSAL_FULL,
    }
}

/// Returns the number of the table that is full, or 0.
pub(crate) fn full_number(why: &Refusal) -> u32
    ensures value { result ≡ full_number (refusal_of why.now) }
    ensures few { result ≤ 8 }
{
    match why {
        Refusal::Full(full) => limit_number(*full),
        _ => 0,
    }
}

/// Returns the number of a table that has a limit.
pub(crate) fn limit_number(full: Limit) -> u32
    ensures value { result ≡ limit_number (limit_of full) }
    ensures few { result ≤ 8 }
{
    match full {
        Limit::Neighbours => LIMIT_NEIGHBOURS,
        Limit::Routers => LIMIT_ROUTERS,
        Limit::Prefixes => LIMIT_PREFIXES,
        Limit::Addresses => LIMIT_ADDRESSES,
        Limit::Servers => LIMIT_SERVERS,
        Limit::Names => LIMIT_NAMES,
        Limit::Offers => LIMIT_OFFERS,
        Limit::StaticRoutes => LIMIT_STATIC_ROUTES,
    }
}
