//! The link-local address of an interface (RFC 4862, section 5.3).

ghost use Rattle.std.specs.Prelude.{◌≡◌};
ghost use Rattle.nd_addr.specs.Number.{number_of};
ghost use Rattle.nd_slaac.specs.PrefixOption.{link_local_of};

use crate::addresses::Addresses;
use nd_addr::{Addr, Mac, Prefix};
use std::alloc::Allocator;

impl<A: Allocator> Addresses<A> {
    /// Returns the link-local address of the interface (RFC 4862, section 5.3), which `start` formed.
    pub fn link_local(&self) -> Addr
        ensures { number_of result.0 ≡ link_local_of self.now.mac }
    {
        self.own
    }
}

/// Returns the link-local address of an interface (RFC 4862, section 5.3).
#[tactic(auto, unfolding(crate::specs::PrefixOption::link_local_of))]
pub(crate) fn link_local(mac: Mac) -> Addr
    ensures { number_of result.0 ≡ link_local_of mac }
{
    Addr::from_mac(&Prefix::link_local_subnet(), mac)
}
