//! The roles by their numbers in C. The definition is in `specs/Role.antt`.

ghost use Rattle.std.specs.Prelude.{◌≡◌};
ghost use Rattle.nd_c_types.specs.Role.{role_of};

use nd_addr::Role;
use nd_heard::header::{ROLE_HOST, ROLE_ROUTER};

/// Returns the role with the number ND_ROLE_HOST or ND_ROLE_ROUTER. Returns `None` for another number.
pub fn role_of(number: u32) -> Option<Role>
    ensures { result ≡ role_of number }
{
    match number {
        ROLE_HOST => Some(Role::Host),
        ROLE_ROUTER => Some(Role::Router),
        _ => None,
    }
}
