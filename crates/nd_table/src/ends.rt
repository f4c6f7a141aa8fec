//! The ends of lifetimes. The definitions are in `specs/Ends.antt`.

ghost use Rattle.std.specs.Prelude.{◌≡◌, ◌<◌};
ghost use Rattle.nd_table.specs.Ends.{end_time, is_before, time_left};
ghost use Rattle.nd_table.specs.Moment.{IsMoment};

/// A lifetime without an end, in seconds (RFC 4861, section 4.6.2).
pub const INFINITY: u32 = 0xffff_ffff;

/// Returns the end of a lifetime in seconds that begins at `now`; moments are in milliseconds. A lifetime of all ones has no end (RFC 4861,
/// section 4.6.2).
pub fn end_time(now: u64, lifetime: u32) -> Option<u64>
    requires { IsMoment now }
    ensures { result ≡ end_time now lifetime }
{
    if lifetime == INFINITY {
        None
    } else {
        Some(now + 1000 * u64::from(lifetime))
    }
}

/// Returns true if `now` is before an end, or there is none. Both are in milliseconds.
pub fn is_before(now: u64, end: Option<u64>) -> bool
    ensures { result ≡ is_before now end }
{
    match end {
        None => true,
        Some(end) => now < end,
    }
}

/// Returns the time that is left at `now` until an end: 0 after the end, and `None` if there is no end. All are in milliseconds.
pub fn time_left(now: u64, end: Option<u64>) -> Option<u64>
    ensures { result ≡ time_left now end }
{
    match end {
        Some(end) => Some(end.saturating_sub(now)),
        None => None,
    }
}
