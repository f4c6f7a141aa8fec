//! Entries that are found by their addresses.

ghost use Rattle.std.specs.Prelude.{◌≡◌, ℕ};
ghost use Rattle.nd_addr.specs.Number.{number_of};

use crate::ranked::Ranked;
use nd_addr::Addr;
use std::cmp::Ordering;

/// An entry of a table, which is found by its address.
pub trait Addressed {
    /// Its address as a number.
    ghost key: { Self → ℕ };

    /// Returns its address.
    fn addr(&self) -> Addr
        ensures { number_of result.0 ≡ key self.now };
}

/// Entries are searched for by the number of an address, which the caller makes once.
impl<E: Addressed> Ranked<u128> for E {
    ghost key = { E.key };

    ghost number = { λ n. n };

    fn compare(&self, sought: &u128) -> Ordering {
        let sought = *sought;
        self.addr().to_bits().cmp(&sought)
    }
}
