ghost use Rattle.std.specs.Prelude.{◌≡◌};
ghost use Rattle.nd_addr.specs.Number.{number_of};

use nd_addr::Addr;
use nd_table::{NamesKey, compare};
use std::marker::Model;

/// A default router, by its address.
#[derive(Debug, Drop)]
pub struct Router {
    addr: Addr,
}

impl Model for Router {
    ghost use Rattle.std.specs.Prelude.{ℕ};
    ghost use Rattle.nd_addr.specs.Number.{number_of};

    ghost Value = { ℕ };

    ghost view = { λ r. number_of r.addr.0 };
}

impl Router {
    /// Returns the router of an address.
    pub(crate) fn of(addr: Addr) -> Router
        ensures { result ≡ number_of addr.0 }
    {
        Router { addr }
    }

    /// Returns its address.
    pub fn addr(&self) -> Addr
        ensures { number_of result.0 ≡ self.now }
    {
        self.addr
    }
}

impl NamesKey<Router> for Addr {
    ghost use Rattle.nd_routers.specs.Routers.{same};
    ghost use Rattle.std.proofs.lemmas.Bool.Decides.{eqb_tells};

    ghost named = { λ a. number_of a.0 };

    ghost same = { same };

    fn names(&self, key: &Router) -> bool {
        compare(key.addr(), *self).is_eq()
    }

    fn names_same(&self, other: &Addr) -> bool {
        compare(*other, *self).is_eq()
    }

    ghost tells = { eqb_tells };
}
