//! Why a link refuses an event.

/// Why a link refuses an event (the reasons are this project's own).
#[derive(Clone, Copy, Debug, PartialEq, Eq)]
pub enum Refusal {
    /// It is too late: time has passed up to this moment, in milliseconds.
    TooLate(u64),
    /// No node has the number.
    NoNode,
    /// No frame has the number.
    NoFrame,
    /// The node has sent the frame itself.
    Own,
    /// The link has as many nodes as it can have.
    Full,
}
