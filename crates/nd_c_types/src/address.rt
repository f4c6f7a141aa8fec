//! One of the node's own addresses, as C sees it. The definition is in `specs/Address.antt`.

ghost use Rattle.std.specs.Prelude.{◌≡◌};
ghost use Rattle.nd_c_types.specs.Address.{address_row, state_number};

use crate::header::{STATE_DEPRECATED, STATE_DUPLICATE, STATE_PREFERRED, STATE_TENTATIVE};
use crate::numbers::left_number;
use nd_slaac::{ShownAddress, State};

/// One of the node's own addresses: `nd_address_row` of the header.
#[repr(C)]
#[derive(Clone, Copy, Drop)]
pub struct AddressRow {
    /// What is left of its preferred lifetime, in milliseconds, or ND_FOREVER.
    pub preferred_left: u64,
    /// What is left of its valid lifetime, in milliseconds, or ND_FOREVER.
    pub valid_left: u64,
    pub address: [u8; 16],
    /// ND_STATE_TENTATIVE to ND_STATE_DUPLICATE.
    pub state: u32,
    /// 1 if it was given by hand, else 0.
    pub by_hand: u8,
    pub reserved: [u8; 3],
}

impl AddressRow {
    /// Returns the row of an address.
    pub fn of(own: &ShownAddress) -> AddressRow
        ensures { result ≡ address_row own.now }
    {
        AddressRow {
            preferred_left: left_number(own.preferred_left),
            valid_left: left_number(own.valid_left),
            address: own.addr.0,
            state: state_number(own.state),
            by_hand: u8::from(own.by_hand),
            reserved: [0; 3],
        }
    }
}

/// Returns the number of a state.
fn state_number(state: State) -> u32
    ensures { result ≡ state_number state }
{
    match state {
        State::Tentative => STATE_TENTATIVE,
        State::Preferred => STATE_PREFERRED,
        State::Deprecated => STATE_DEPRECATED,
        State::Duplicate => STATE_DUPLICATE,
    }
}
