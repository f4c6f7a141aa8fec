//! The tables that can be cleared by their numbers in C. The definition is in `specs/Clearable.antt`.

ghost use Rattle.std.specs.Prelude.{◌≡◌};
ghost use Rattle.nd_c_types.specs.Clearable.{clearable_in};

use crate::header::{
    CLEARABLE_DNS, CLEARABLE_NEIGHBOURS, CLEARABLE_PREFIXES, CLEARABLE_REDIRECTS, CLEARABLE_ROUTERS,
};
use nd_node::Clearable;

/// Returns the table with the number ND_CLEARABLE_NEIGHBOURS to ND_CLEARABLE_DNS. Returns `None` for another number.
pub fn clearable_in(number: u32) -> Option<Clearable>
    ensures { result ≡ clearable_in number }
{
    match number {
        CLEARABLE_NEIGHBOURS => Some(Clearable::Neighbours),
        CLEARABLE_ROUTERS => Some(Clearable::Routers),
        CLEARABLE_PREFIXES => Some(Clearable::Prefixes),
        CLEARABLE_REDIRECTS => Some(Clearable::Redirects),
        CLEARABLE_DNS => Some(Clearable::Dns),
        _ => None,
    }
}
