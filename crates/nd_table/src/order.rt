//! The order of addresses.

ghost use Rattle.std.specs.Prelude.{◌≡◌};
ghost use Rattle.std.specs.Ordering.{nat_cmp};
ghost use Rattle.nd_addr.specs.Number.{number_of};

use nd_addr::Addr;
use std::cmp::Ordering;

/// Returns the order of two addresses, which is that of their numbers.
pub fn compare(a: Addr, b: Addr) -> Ordering
    ensures { result ≡ nat_cmp (number_of a.0) (number_of b.0) }
{
    a.to_bits().cmp(&b.to_bits())
}
