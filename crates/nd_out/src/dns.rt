ghost use Rattle.std.specs.Prelude.{◌≡◌, ◌++◌, IfOk, map, string_bytes};
ghost use Rattle.nd_table.specs.Left.{lifetimes_left};
ghost use Rattle.nd_chronicle.specs.Shown.{server_row, search_row};

use crate::row::{Row, add_with_lifetimes};
use nd_addr::Addr;
use nd_dns::SearchName;
use nd_table::WithLifetimes;
use std::alloc::{AllocError, Allocator};

impl Row for Addr {
    ghost use Rattle.std.specs.Prelude.{◌++◌, codes};
    ghost use Rattle.nd_addr.specs.Text.{address_text};

    ghost shown = { λ server. codes "server " ++ address_text server.0 };

    fn write_row<A: Allocator>(&self, text: &mut String<A>) -> Result<(), AllocError> {
        text.push_str("server ")?;
        self.write_text(text)
    }
}

impl<B: Allocator> Row for SearchName<B> {
    ghost use Rattle.std.specs.Prelude.{◌++◌, codes};
    ghost use Rattle.nd_search_list.specs.Text.{name_text};

    ghost shown = { λ name. codes "search " ++ name_text name };

    fn write_row<A: Allocator>(&self, text: &mut String<A>) -> Result<(), AllocError> {
        text.push_str("search ")?;
        self.as_name().write_text(text)?;
        Ok(())
    }
}

/// Returns the rows of DNS servers and then of search names, in their orders. Returns an error if out of memory.
pub fn dns_rows<A: Allocator + Clone, B: Allocator>(
    alloc: &A,
    servers: WithLifetimes<'_, Addr>,
    search_names: WithLifetimes<'_, SearchName<B>>,
) -> Result<Vec<String<A>, A>, AllocError>
    ensures { IfOk result (λ rows. map string_bytes rows.items ≡ map server_row (lifetimes_left servers.entry) ++ map search_row (lifetimes_left search_names.entry)) }
{
    let mut rows = Vec::new(alloc.clone()?);
    add_with_lifetimes(&mut rows, alloc, servers)?;
    add_with_lifetimes(&mut rows, alloc, search_names)?;
    Ok(rows)
}
