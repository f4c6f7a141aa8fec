//! Moments that may be missing. The definitions are in `specs/Due.antt` and `specs/DueKept.antt`.

ghost use Rattle.std.specs.Prelude.{◌≡◌};
ghost use Rattle.nd_table.specs.Due.{lesser};
ghost use Rattle.nd_table.specs.DueKept.{is_at};

/// Returns the lesser of two moments in milliseconds, either of which may be missing.
pub fn lesser(a: Option<u64>, b: Option<u64>) -> Option<u64>
    ensures { result ≡ lesser a b }
{
    match (a, b) {
        (Some(x), Some(y)) => Some(x.min(y)),
        (None, other) | (other, None) => other,
    }
}

/// Returns true if there is a date and it is `now`, both in milliseconds.
pub fn is_at(now: u64, date: Option<u64>) -> bool
    ensures { result ≡ is_at now date }
{
    match date {
        None => false,
        Some(date) => date == now,
    }
}
