//! A Redirect is taken (RFC 4861, section 8.3).

ghost use Rattle.std.specs.Prelude.{◌≡◌, ℕ, OnOk, OnErr, IsOk, IsSome, nat_eq};
ghost use Rattle.std.specs.Map.{lookup};
ghost use Rattle.nd_addr.specs.Number.{number_of};
ghost use Rattle.nd_nexthop.specs.Memo.{forgotten};

use crate::choice::Choice;
use crate::target::Target;
use nd_addr::Addr;
use std::alloc::{AllocError, Allocator};

impl<A: Allocator + Clone> Choice<A> {
    ghost use Rattle.nd_nexthop.specs.History.{Redirected};
    ghost use Rattle.nd_nexthop.specs.Choice.{GainsRow};

    /// Takes a Redirect: `target` is the better first hop of a destination (RFC 4861, section 8.3). Only the redirects of as many destinations
    /// as the limit, those redirected most recently, are kept. Remembered next hops are forgotten. Out of memory: nothing has changed.
    pub fn redirected(&mut self, destination: Addr, target: Addr) -> Result<(), AllocError>
        ensures stands { OnOk result ((at : ℕ) → GainsRow self.old self.new (Redirected at (number_of destination.0) (number_of target.0))) }
        ensures memory { OnOk result (self.new.memory ≡ forgotten self.old.memory) }
        ensures limit { self.new.redirects.limit ≡ self.old.redirects.limit }
        ensures destinations { self.new.redirects.destinations ≡ self.old.redirects.destinations }
        ensures same { OnErr result (self.new ≡ self.old) }
        ensures known { IsSome (lookup (nat_eq (number_of destination.0)) self.old.redirects.entries) → IsOk result }
    {
        self.redirects
            .put(destination.to_bits(), Target::of(target))?;
        self.memo.forget();
        Ok(())
    }
}
