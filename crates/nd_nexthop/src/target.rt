//! The target of a kept redirect.

ghost use Rattle.std.specs.Prelude.{◌≡◌, Some, option_map};
ghost use Rattle.nd_addr.specs.Number.{number_of};
ghost use Rattle.nd_nexthop.specs.Choice.{left_of};

use nd_addr::Addr;
use nd_table::compare;
use std::marker::Model;

/// The target of a redirect, until the redirect has ended.
#[derive(Debug, Drop)]
pub(crate) struct Target {
    addr: Option<Addr>,
}

impl Model for Target {
    ghost use Rattle.std.specs.Prelude.{ℕ, Option, option_map};
    ghost use Rattle.nd_addr.specs.Number.{number_of};

    ghost Value = { Option ℕ };

    ghost view = { λ t. option_map (λ a. number_of a.0) t.addr };
}

impl Target {
    /// Returns a redirect to an address.
    pub(crate) fn of(addr: Addr) -> Target
        ensures { result ≡ Some (number_of addr.0) }
    {
        Target { addr: Some(addr) }
    }

    /// Returns the target, unless the redirect has ended.
    pub(crate) fn addr(&self) -> Option<Addr>
        ensures { option_map (λ a. number_of a.0) result ≡ self.now }
    {
        self.addr
    }

    /// Ends the redirect if it is to `gone`, or if that is `None`.
    pub(crate) fn end(&mut self, gone: Option<Addr>)
        ensures { self.new ≡ left_of (option_map (λ a. number_of a.0) gone) self.old }
    {
        self.addr = left_of(gone, self.addr);
    }
}

/// Returns the target, unless it is `gone` or `gone` is `None`.
fn left_of(gone: Option<Addr>, target: Option<Addr>) -> Option<Addr>
    ensures { option_map (λ a. number_of a.0) result ≡ left_of (option_map (λ a. number_of a.0) gone) (option_map (λ a. number_of a.0) target) }
{
    match (gone, target) {
        (Some(gone), Some(target)) if !compare(gone, target).is_eq() => Some(target),
        _ => None,
    }
}
