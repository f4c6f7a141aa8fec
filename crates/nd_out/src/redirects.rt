ghost use Rattle.std.specs.Prelude.{◌≡◌, IfOk, map, string_bytes};
ghost use Rattle.nd_nexthop.specs.Left.{redirects_left};
ghost use Rattle.nd_chronicle.specs.Shown.{redirect_row};

use crate::line::write_address;
use crate::row::{Row, add_row};
use nd_nexthop::{KeptRedirects, Redirect};
use std::alloc::{AllocError, Allocator};

impl Row for Redirect {
    ghost use Rattle.nd_nexthop.specs.Left.{redirect_of};
    ghost use Rattle.nd_chronicle.specs.Shown.{redirect_row};

    ghost shown = { λ r. redirect_row (redirect_of r) };

    fn write_row<A: Allocator>(&self, text: &mut String<A>) -> Result<(), AllocError> {
        text.push_str("redirect ")?;
        write_address(text, self.destination)?;
        text.push_str(" ")?;
        write_address(text, self.target)
    }
}

/// Returns the rows of kept redirects, in their order. Returns an error if out of memory.
pub fn redirect_rows<A: Allocator + Clone>(
    alloc: &A,
    redirects: KeptRedirects<'_>,
) -> Result<Vec<String<A>, A>, AllocError>
    ensures { IfOk result (λ rows. map string_bytes rows.items ≡ map redirect_row (redirects_left redirects.entry)) }
{
    let mut rows = Vec::new(alloc.clone()?);
    for redirect in redirects {
        add_row(&mut rows, alloc, &redirect)?;
    }
    Ok(rows)
}
