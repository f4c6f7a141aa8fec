ghost use Rattle.std.specs.Prelude.{◌≡◌, IfOk, map, string_bytes};
ghost use Rattle.nd_routers.specs.Left.{routers_left};
ghost use Rattle.nd_chronicle.specs.Shown.{router_row};

use crate::line::write_address;
use crate::row::{Row, add_row, write_left, write_word};
use nd_routers::{DefaultRouter, DefaultRouters};
use std::alloc::{AllocError, Allocator};

impl Row for DefaultRouter {
    ghost use Rattle.nd_routers.specs.View.{seen_in};
    ghost use Rattle.nd_chronicle.specs.Shown.{router_row};

    ghost shown = { λ r. router_row (seen_in r) };

    fn write_row<A: Allocator>(&self, text: &mut String<A>) -> Result<(), AllocError> {
        text.push_str("router ")?;
        write_address(text, self.addr)?;
        write_left(text, self.left)?;
        write_word(text, self.preference.name())
    }
}

/// Returns the rows of default routers, in their order. Returns an error if out of memory.
pub fn router_rows<A: Allocator + Clone>(
    alloc: &A,
    routers: DefaultRouters<'_>,
) -> Result<Vec<String<A>, A>, AllocError>
    ensures { IfOk result (λ rows. map string_bytes rows.items ≡ map router_row (routers_left routers.entry)) }
{
    let mut rows = Vec::new(alloc.clone()?);
    for router in routers {
        add_row(&mut rows, alloc, &router)?;
    }
    Ok(rows)
}
