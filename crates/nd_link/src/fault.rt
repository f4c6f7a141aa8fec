//! Why an event of a link could not be done.

ghost use Rattle.std.specs.Prelude.{◌≡◌};

use nd_wire::WireFault;
use std::alloc::AllocError;

/// Why an event of a link could not be done.
#[derive(Clone, Copy, Debug, PartialEq, Eq)]
pub enum LinkFault {
    /// Out of memory. The link is closed: every later call returns this error.
    Memory,
    /// The wire failed to carry a frame. All that was due is done, and the receiver has heard nothing.
    Wire,
}

impl From<AllocError> for LinkFault {
    ghost use Rattle.nd_link.specs.declared.fault.LinkFault.TheVariants.{Memory};

    ghost from_gives = { λ _ fault. fault ≡ Memory };

    fn from(_: AllocError) -> LinkFault {
        LinkFault::Memory
    }
}

impl From<WireFault> for LinkFault {
    ghost use Rattle.nd_link.specs.declared.fault.LinkFault.TheVariants.{Wire};

    ghost from_gives = { λ _ fault. fault ≡ Wire };

    fn from(_: WireFault) -> LinkFault {
        LinkFault::Wire
    }
}
