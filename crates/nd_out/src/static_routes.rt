//! The static routes of a router, as they are shown.

ghost use Rattle.std.specs.Prelude.{◌≡◌, ◌++◌, IfOk, OnOk, codes, map, string_bytes};
ghost use Rattle.nd_forwarding.specs.KeptRoutes.{routes_left};
ghost use Rattle.nd_chronicle.specs.Shown as shown;
ghost use Rattle.nd_chronicle.specs.Shown.{route_row, way_of};

use crate::row::{Row, add_row};
use nd_addr::Role;
use nd_forwarding::{KeptRoute, KeptRoutes, Route};
use std::alloc::{AllocError, Allocator};

/// Writes where a route leads.
fn write_way<A: Allocator>(text: &mut String<A>, route: Route) -> Result<(), AllocError>
    ensures { OnOk result (string_bytes text.new ≡ string_bytes text.old ++ codes " " ++ way_of route) }
{
    text.push_str(" ")?;
    match route {
        Route::Direct => text.push_str("direct"),
        Route::Via(router) => router.write_text(text),
    }
}

impl Row for KeptRoute {
    ghost use Rattle.nd_forwarding.specs.KeptRoutes.{entry_of};
    ghost use Rattle.nd_chronicle.specs.Shown.{route_row};

    ghost shown = { λ r. route_row (entry_of r) };

    fn write_row<A: Allocator>(&self, text: &mut String<A>) -> Result<(), AllocError> {
        text.push_str("route ")?;
        self.prefix.write_text(text)?;
        write_way(text, self.route)
    }
}

/// Returns the rows of static routes, in their order. A host has none. Returns an error if out of memory.
pub fn route_rows<A: Allocator + Clone>(
    alloc: &A,
    role: Role,
    routes: KeptRoutes<'_>,
) -> Result<Vec<String<A>, A>, AllocError>
    ensures { IfOk result (λ rows. map string_bytes rows.items ≡ shown.route_rows role (routes_left routes.entry)) }
{
    let mut rows = Vec::new(alloc.clone()?);
    match role {
        Role::Host => Ok(rows),
        Role::Router => {
            add_routes(&mut rows, alloc, routes)?;
            Ok(rows)
        }
    }
}

/// Appends the rows of routes. Returns an error if out of memory.
fn add_routes<A: Allocator + Clone>(
    rows: &mut Vec<String<A>, A>,
    alloc: &A,
    routes: KeptRoutes<'_>,
) -> Result<(), AllocError>
    ensures { OnOk result (map string_bytes rows.new.items ≡ map string_bytes rows.old.items ++ map route_row (routes_left routes.entry)) }
{
    for route in routes {
        add_row(rows, alloc, &route)?;
    }
    Ok(())
}
