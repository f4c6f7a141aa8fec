//! The faults that end a run of the tool.

ghost use Rattle.std.specs.Prelude.{◌≡◌};
ghost use Rattle.nd_lines.specs.declared.tool_fault.ToolFault.TheVariants.{Read, Write, Memory};
ghost use Rattle.nd_lines.specs.ToolFault.{status_of};

use crate::input::ReadFault;
use crate::output::WriteFault;
use std::alloc::AllocError;
use thiserror::Error;

/// Why the tool stopped before its work was done.
#[derive(Clone, Copy, Debug, PartialEq, Eq, Error)]
pub enum ToolFault {
    /// The line of this number, counted from 1, is malformed.
    #[error("line {0}: malformed")]
    Line(u64),
    /// Out of memory.
    #[error("no memory")]
    Memory,
    /// A read failed, or the input has too many reads.
    #[error("input failed")]
    Read,
    /// A write failed.
    #[error("output failed")]
    Write,
    /// The wire between two nodes failed.
    #[error("wire failed")]
    Wire,
}

impl ToolFault {
    /// Returns the exit status of the tool: 2 for a malformed line, 3 for memory, 4 for a read, a write or a wire.
    pub fn status(self) -> u8
        ensures { result ≡ status_of self }
    {
        match self {
            ToolFault::Line(_) => 2,
            ToolFault::Memory => 3,
            ToolFault::Read | ToolFault::Write | ToolFault::Wire => 4,
        }
    }
}

impl From<ReadFault> for ToolFault {
    ghost from_gives = { λ _ fault. fault ≡ Read };

    fn from(_: ReadFault) -> ToolFault {
        ToolFault::Read
    }
}

impl From<WriteFault> for ToolFault {
    ghost from_gives = { λ _ fault. fault ≡ Write };

    fn from(_: WriteFault) -> ToolFault {
        ToolFault::Write
    }
}

impl From<AllocError> for ToolFault {
    ghost from_gives = { λ _ fault. fault ≡ Memory };

    fn from(_: AllocError) -> ToolFault {
        ToolFault::Memory
    }
}
