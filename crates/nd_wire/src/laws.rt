//! Laws of all frames.

ghost use Rattle.nd_wire.specs.Wire.{IsFaithful};

use crate::failing_wire::FailingWire;
use crate::memory_wire::MemoryWire;
use crate::wire::Wire;

/// A wire over memory delivers each frame as it was sent.
pub fn memory_is_faithful()
    ensures { IsFaithful ⟦<MemoryWire as Wire>⟧.arrives }
{}

/// A call that fails changes no frame that arrives.
pub fn failing_is_faithful<W: Wire>()
    ensures { IsFaithful W.arrives → IsFaithful ⟦<FailingWire<W> as Wire>⟧.arrives }
{}
