//! The two-hour rule for valid lifetimes (RFC 4862, section 5.5.3 e). The definitions are in `specs/TwoHours.antt`.

ghost use Rattle.std.specs.Prelude.{◌≡◌, ◌<◌};
ghost use Rattle.nd_table.specs.Moment.{IsMoment};
ghost use Rattle.nd_slaac.specs.TwoHours.{within_two_hours, renewed};

use nd_table::end_time;

/// Two hours, in seconds (RFC 4862, section 5.5.3 e).
const TWO_HOURS: u32 = 7200;

/// Returns `end`, or two hours from `now` if that is earlier or there is no end. Both are in milliseconds.
fn within_two_hours(now: u64, end: Option<u64>) -> u64
    requires { IsMoment now }
    ensures { result ≡ within_two_hours now end }
{
    let limit = now + 1000 * u64::from(TWO_HOURS);
    match end {
        None => limit,
        Some(end) => end.min(limit),
    }
}

/// Returns the end of an address's valid lifetime, in milliseconds, after its prefix is announced again with the valid lifetime `valid`, in seconds
/// (RFC 4862, section 5.5.3 e). `None` is no end; so is a lifetime of all ones.
pub fn renewed(now: u64, end: Option<u64>, valid: u32) -> Option<u64>
    requires { IsMoment now }
    ensures { result ≡ renewed now end valid }
{
    if valid > TWO_HOURS {
        return end_time(now, valid);
    }
    let announced = now + 1000 * u64::from(valid);
    Some(announced.max(within_two_hours(now, end)))
}
