//! A Redirect in force, as C sees it. The definition is in `specs/Redirect.antt`.

ghost use Rattle.std.specs.Prelude.{◌≡◌};
ghost use Rattle.nd_c_types.specs.Redirect.{redirect_row};

use nd_nexthop::Redirect;

/// A Redirect in force: `nd_redirect_row` of the header.
#[repr(C)]
#[derive(Clone, Copy, Drop)]
pub struct RedirectRow {
    pub destination: [u8; 16],
    /// Its first hop.
    pub target: [u8; 16],
}

impl RedirectRow {
    /// Returns the row of a Redirect.
    pub fn of(redirect: &Redirect) -> RedirectRow
        ensures { result ≡ redirect_row redirect.now }
    {
        RedirectRow {
            destination: redirect.destination.0,
            target: redirect.target.0,
        }
    }
}
