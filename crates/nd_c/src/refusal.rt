//! What a status says of a refusal. The definitions are in `nd_c_types/specs/Refusal.antt`.

ghost use Rattle.std.specs.Prelude.{◌≡◌};
ghost use Rattle.nd_c_types.specs.Refusal.{limit_in, refusal_in};

use nd_c_types::{limit_in, refusal_in};

/// Returns the reason for which an event was refused, by the status that its call returned: ND_REFUSAL_WRONG_ROLE to ND_REFUSAL_TENTATIVE. Returns 0
/// for the status of an event that was not refused.
#[unsafe(no_mangle)]
pub extern "C" fn nd_refusal_of(status: i32) -> u32
    ensures { result ≡ refusal_in status }
{
    refusal_in(status)
}

/// Returns the table that would pass its limit, by the status that a call returned: ND_LIMIT_NEIGHBOURS to ND_LIMIT_STATIC_ROUTES. Returns 0 where no
/// limit refused the event.
#[unsafe(no_mangle)]
pub extern "C" fn nd_limit_of(status: i32) -> u32
    ensures { result ≡ limit_in status }
{
    limit_in(status)
}
