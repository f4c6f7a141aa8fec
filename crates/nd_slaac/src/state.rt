//! The states of an address (RFC 4862, section 2). The definition is in `specs/State.antt`.

/// The state of an address (RFC 4862, sections 2 and 5.4). It is assigned to the interface if it is preferred or deprecated.
#[derive(Clone, Copy, Debug, PartialEq, Eq)]
pub enum State {
    /// Duplicate address detection has not ended.
    Tentative,
    /// It is assigned, and may be used freely.
    Preferred,
    /// It is assigned, and its preferred lifetime has ended.
    Deprecated,
    /// Another node has it or tries it. It stays a duplicate until its valid lifetime ends.
    Duplicate,
}
