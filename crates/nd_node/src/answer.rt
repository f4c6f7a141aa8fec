//! The answer to an event. The definition is in `specs/Answer.antt`.

use nd_out::Refusal;

/// How a node took an event.
#[derive(Clone, Copy, Debug, PartialEq, Eq)]
pub enum Answer {
    /// The event took place, or its frame was dropped.
    Done,
    /// The packet that the upper layer sends has no next hop, and is lost (RFC 4861, section 5.2).
    NoRoute,
    /// The event was refused, for this reason, and changed nothing.
    Refused(Refusal),
    /// The event is earlier than this moment, in milliseconds, up to which time had passed. It changed nothing.
    Past(u64),
}
