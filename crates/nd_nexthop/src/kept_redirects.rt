//! The kept redirects as typed values.

use crate::target::Target;
use lru::Iter;
use nd_addr::Addr;

/// A kept redirect.
#[derive(Clone, Copy, Debug, PartialEq, Eq)]
pub struct Redirect {
    pub destination: Addr,
    /// Its better first hop, which is the destination itself if that is on the link (RFC 4861, section 8).
    pub target: Addr,
}

/// The kept redirects, the newest first.
#[derive(Drop)]
pub struct KeptRedirects<'a> {
    rest: Iter<'a, u128, Target>,
}

impl<'a> KeptRedirects<'a> {
    ghost use Rattle.std.specs.Prelude.{◌≡◌};
    ghost use Rattle.nd_nexthop.specs.History.{those_left};
    ghost use Rattle.nd_nexthop.specs.Left.{redirects_left};

    /// Returns the redirects of these entries that have not ended.
    pub(crate) fn new(rest: Iter<'a, u128, Target>) -> Self
        ensures { redirects_left result ≡ those_left rest.entry }
    {
        KeptRedirects { rest }
    }
}

impl Iterator for KeptRedirects<'_> {
    type Item = Redirect;

    ghost use Rattle.std.specs.Iterator.{YieldsFirstBy, item_count};
    ghost use Rattle.nd_nexthop.specs.Left.{redirects_left, redirect_of};

    ghost next_gives = { YieldsFirstBy redirect_of redirects_left };

    ghost remaining = { item_count redirects_left };

    fn next(&mut self) -> Option<Redirect> {
        while let Some((destination, target)) = self.rest.next() {
            if let Some(target) = target.addr() {
                return Some(Redirect {
                    destination: Addr::from_bits(*destination),
                    target,
                });
            }
        }
        None
    }
}
