ghost use Rattle.std.specs.Prelude.{◌≡◌, IfOk, map, string_bytes};
ghost use Rattle.nd_slaac.specs.Left.{addresses_left};
ghost use Rattle.nd_chronicle.specs.Shown.{address_row, state_text};

use crate::line::write_address;
use crate::row::{Row, add_row, write_left};
use nd_slaac::{ShownAddress, ShownAddresses, State};
use std::alloc::{AllocError, Allocator};

impl Row for ShownAddress {
    ghost use Rattle.nd_slaac.specs.View.{seen_in};
    ghost use Rattle.nd_chronicle.specs.Shown.{address_row};

    ghost shown = { λ a. address_row (seen_in a) };

    fn write_row<A: Allocator>(&self, text: &mut String<A>) -> Result<(), AllocError> {
        text.push_str("address ")?;
        write_address(text, self.addr)?;
        text.push_str(" ")?;
        text.push_str(state_word(self.state))?;
        write_left(text, self.preferred_left)?;
        write_left(text, self.valid_left)
    }
}

/// Returns the word for a state (RFC 4862, section 2).
fn state_word(state: State) -> &'static str
    ensures { result.now ≡ state_text state }
{
    match state {
        State::Tentative => "tentative",
        State::Preferred => "preferred",
        State::Deprecated => "deprecated",
        State::Duplicate => "duplicate",
    }
}

/// Returns the rows of the node's own addresses, in their order. Returns an error if out of memory.
pub fn address_rows<A: Allocator + Clone>(
    alloc: &A,
    addresses: ShownAddresses<'_>,
) -> Result<Vec<String<A>, A>, AllocError>
    ensures { IfOk result (λ rows. map string_bytes rows.items ≡ map address_row (addresses_left addresses.entry)) }
{
    let mut rows = Vec::new(alloc.clone()?);
    for address in addresses {
        add_row(&mut rows, alloc, &address)?;
    }
    Ok(rows)
}
