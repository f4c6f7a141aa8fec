//! A default router, as C sees it. The definition is in `specs/Router.antt`.

ghost use Rattle.std.specs.Prelude.{◌≡◌};
ghost use Rattle.nd_c_types.specs.Router.{router_row};

use crate::numbers::left_number;
use nd_heard::preference_number;
use nd_routers::DefaultRouter;

/// A default router: `nd_router_row` of the header.
#[repr(C)]
#[derive(Clone, Copy, Drop)]
pub struct RouterRow {
    /// What is left of its lifetime, in milliseconds.
    pub left: u64,
    pub address: [u8; 16],
    /// ND_PREFERENCE_MEDIUM, ND_PREFERENCE_HIGH or ND_PREFERENCE_LOW.
    pub preference: u32,
    pub reserved: u32,
}

impl RouterRow {
    /// Returns the row of a default router.
    pub fn of(router: &DefaultRouter) -> RouterRow
        ensures { result ≡ router_row router.now }
    {
        RouterRow {
            left: left_number(router.left),
            address: router.addr.0,
            preference: u32::from(preference_number(router.preference)),
            reserved: 0,
        }
    }
}
