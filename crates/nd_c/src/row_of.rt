//! Which structure shows an item of which table.

ghost use Rattle.std.specs.Prelude.{◌≡◌};
ghost use Rattle.nd_c_types.specs.Address.{address_row};
ghost use Rattle.nd_c_types.specs.Dns.{name_row, server_row};
ghost use Rattle.nd_c_types.specs.Neighbour.{neighbour_row};
ghost use Rattle.nd_c_types.specs.Offer.{offer_row};
ghost use Rattle.nd_c_types.specs.Prefix.{prefix_row};
ghost use Rattle.nd_c_types.specs.Redirect.{redirect_row};
ghost use Rattle.nd_c_types.specs.Route.{route_row};
ghost use Rattle.nd_c_types.specs.Router.{router_row};

use nd_addr::{Addr, Prefix};
use nd_advertiser::Offer;
use nd_c_types::{
    AddressRow, NameRow, NeighbourRow, OfferRow, PrefixRow, RedirectRow, RouteRow, RouterRow,
    ServerRow,
};
use nd_dns::SearchName;
use nd_forwarding::KeptRoute;
use nd_neighbour::Neighbour;
use nd_nexthop::Redirect;
use nd_routers::DefaultRouter;
use nd_slaac::ShownAddress;
use nd_table::WithLifetime;
use std::alloc::Global;

/// A structure for C that shows an item of a table.
pub(crate) trait RowOf<T>: Copy + Drop {
    ghost row_of: { T → Self };

    /// Returns the row of an item.
    fn of_item(item: &T) -> Self
        ensures { result ≡ row_of item.now };
}

impl RowOf<Neighbour> for NeighbourRow {
    ghost row_of = { neighbour_row };

    fn of_item(item: &Neighbour) -> NeighbourRow {
        NeighbourRow::of(item)
    }
}

impl RowOf<DefaultRouter> for RouterRow {
    ghost row_of = { router_row };

    fn of_item(item: &DefaultRouter) -> RouterRow {
        RouterRow::of(item)
    }
}

impl<'a> RowOf<WithLifetime<'a, Prefix>> for PrefixRow {
    ghost row_of = { prefix_row };

    fn of_item(item: &WithLifetime<'a, Prefix>) -> PrefixRow {
        PrefixRow::of(item)
    }
}

impl RowOf<ShownAddress> for AddressRow {
    ghost row_of = { address_row };

    fn of_item(item: &ShownAddress) -> AddressRow {
        AddressRow::of(item)
    }
}

impl<'a> RowOf<WithLifetime<'a, Addr>> for ServerRow {
    ghost row_of = { server_row };

    fn of_item(item: &WithLifetime<'a, Addr>) -> ServerRow {
        ServerRow::of(item)
    }
}

impl<'a> RowOf<WithLifetime<'a, SearchName<Global>>> for NameRow {
    ghost row_of = { name_row };

    fn of_item(item: &WithLifetime<'a, SearchName<Global>>) -> NameRow {
        NameRow::of(item)
    }
}

impl RowOf<Redirect> for RedirectRow {
    ghost row_of = { redirect_row };

    fn of_item(item: &Redirect) -> RedirectRow {
        RedirectRow::of(item)
    }
}

impl RowOf<Offer> for OfferRow {
    ghost row_of = { offer_row };

    fn of_item(item: &Offer) -> OfferRow {
        OfferRow::of(item)
    }
}

impl RowOf<KeptRoute> for RouteRow {
    ghost row_of = { route_row };

    fn of_item(item: &KeptRoute) -> RouteRow {
        RouteRow::of(item)
    }
}
