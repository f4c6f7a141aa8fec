//! The numbers of `include/nd_hear.h`, by their names there without `ND_`. Those of `enum nd_why` are in `nd_addr::Why`. `bindings/check` compares
//! each with the header.

/// The call took place.
pub const DONE: i32 = 0;

/// There is no such row, record or next hop.
pub const NOTHING: i32 = 1;

/// The link-layer address is not known yet.
pub const WAITING: i32 = 2;

/// Memory was refused.
pub const NO_MEMORY: i32 = -1;

/// The node is not open.
pub const CLOSED: i32 = -2;

/// An argument that the call does not take.
pub const INVALID: i32 = -3;

/// The moment is before the one up to which time has passed.
pub const PAST: i32 = -4;

/// The buffer is too short.
pub const NO_ROOM: i32 = -5;

pub const ROLE_HOST: u32 = 0;

pub const ROLE_ROUTER: u32 = 1;

pub const PREFERENCE_MEDIUM: u8 = 0;

pub const PREFERENCE_HIGH: u8 = 1;

pub const PREFERENCE_LOW: u8 = 2;

/// A valid message of Neighbor Discovery.
pub const HEARING_VALID: u32 = 1;

/// Another IPv6 packet.
pub const HEARING_OTHER: u32 = 2;

/// A frame to be dropped.
pub const HEARING_DROP: u32 = 3;
