ghost use Rattle.std.specs.Prelude.{◌≡◌, IfOk, map, string_bytes};
ghost use Rattle.nd_table.specs.Left.{lifetimes_left};
ghost use Rattle.nd_chronicle.specs.Shown.{prefix_row};

use crate::row::{Row, add_with_lifetimes};
use nd_addr::Prefix;
use nd_table::WithLifetimes;
use std::alloc::{AllocError, Allocator};

impl Row for Prefix {
    ghost use Rattle.std.specs.Prelude.{◌++◌, codes};
    ghost use Rattle.nd_addr.specs.Text.{prefix_text};

    ghost shown = { λ prefix. codes "prefix " ++ prefix_text prefix };

    fn write_row<A: Allocator>(&self, text: &mut String<A>) -> Result<(), AllocError> {
        text.push_str("prefix ")?;
        self.write_text(text)
    }
}

/// Returns the rows of prefixes on the link, in their order. Returns an error if out of memory.
pub fn prefix_rows<A: Allocator + Clone>(
    alloc: &A,
    prefixes: WithLifetimes<'_, Prefix>,
) -> Result<Vec<String<A>, A>, AllocError>
    ensures { IfOk result (λ rows. map string_bytes rows.items ≡ map prefix_row (lifetimes_left prefixes.entry)) }
{
    let mut rows = Vec::new(alloc.clone()?);
    add_with_lifetimes(&mut rows, alloc, prefixes)?;
    Ok(rows)
}
