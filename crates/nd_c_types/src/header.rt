//! The numbers of `include/nd.h`, by their names there without `ND_`. Those of `include/nd_hear.h` are in `nd_heard::header`. `bindings/check` compares
//! each with the header.

use nd_addr::{ETHERNET_HEADER_LENGTH, ETHERNET_MTU};
use nd_table::INFINITY;

/// The limit that moments are below, in milliseconds.
pub const MOMENT_LIMIT: u64 = 1 << 62;

/// What is left of a lifetime without an end, in place of milliseconds.
pub const FOREVER: u64 = u64::MAX;

/// An announced lifetime without an end, in seconds (RFC 4861, section 4.6.2).
pub const LIFETIME_INFINITE: u32 = INFINITY;

/// The number of bytes of the longest frame of a link with the MTU of Ethernet.
pub const BUFFER_BYTES: usize = ETHERNET_HEADER_LENGTH + ETHERNET_MTU as usize;

/// Random words come from PCG32, seeded with `seed`.
pub const DRAWS_SEED: u8 = 0;

/// Each random word is `seed`.
pub const DRAWS_WORD: u8 = 1;

/// A message is taken in part where a table has no room for all of it.
pub const POLICY_PARTS: u32 = 1;

/// A neighbour that is only asked for gives way to one that speaks.
pub const POLICY_SPEAKERS: u32 = 2;

/// Numbers of an advertisement that are outside their ranges say nothing.
pub const POLICY_TIMERS: u32 = 4;

/// What claims to come from the node itself is of no other node.
pub const POLICY_SELF: u32 = 8;

/// A router sends on only what came to its own address.
pub const POLICY_UNICAST: u32 = 16;

/// No address is formed from a prefix option.
pub const POLICY_UNFORMED: u32 = 32;

/// An address that is assigned is announced: not built yet, and refused.
pub const POLICY_ANNOUNCE: u32 = 64;

/// Router Solicitations go on: not built yet, and refused.
pub const POLICY_SOLICIT: u32 = 128;

/// Solicitations of a detection have a nonce: not built yet, and refused.
pub const POLICY_NONCE: u32 = 256;

/// The flag S of an advertisement counts only where a solicitation is out.
pub const POLICY_ASKED: u32 = 512;

/// At most half of the neighbours are looked for: not built yet, and refused.
pub const POLICY_LOOKUPS: u32 = 1024;

/// Lifetimes are read as at most 9,000 seconds of a router, and a week of all else.
pub const POLICY_LIFETIMES: u32 = 2048;

/// A Redirect is dropped.
pub const POLICY_UNREDIRECTED: u32 = 4096;

/// What the RFCs forbid to send is dropped.
pub const POLICY_STRICT: u32 = 8192;

/// The policies for a link that isn't trusted.
pub const POLICIES_ROBUST: u32 = 31 + 512 + 2048 + 8192;

// What a node reports: `enum nd_kind`.
pub const OUT_FRAME: u32 = 1;

pub const OUT_HEARD: u32 = 2;

pub const OUT_DROPPED: u32 = 3;

pub const OUT_UP: u32 = 4;

pub const OUT_DUPLICATE: u32 = 5;

pub const OUT_ASSIGNED: u32 = 6;

pub const OUT_ENDED_ADDRESS: u32 = 7;

pub const OUT_ENDED_ROUTER: u32 = 8;

pub const OUT_FAILED: u32 = 9;

pub const OUT_LOST: u32 = 10;

pub const OUT_REFUSED: u32 = 11;

// 12 is kept for a record that is planned.
pub const OUT_RESOLVED: u32 = 13;

pub const OUT_IGNORED: u32 = 14;

// The tables that a report may have changed: `enum nd_change`.
pub const CHANGE_ROUTERS: u32 = 1;

pub const CHANGE_PREFIXES: u32 = 2;

pub const CHANGE_ADDRESSES: u32 = 4;

pub const CHANGE_SERVERS: u32 = 8;

pub const CHANGE_NAMES: u32 = 16;

pub const CHANGE_REDIRECTS: u32 = 32;

pub const CHANGE_PARAMETERS: u32 = 64;

// Why a packet is not sent: `enum nd_loss`.
pub const LOSS_UNREACHABLE: u32 = 1;

pub const LOSS_REPLACED: u32 = 2;

pub const LOSS_FORGOTTEN: u32 = 3;

pub const LOSS_NO_ROUTE: u32 = 4;

pub const LOSS_HOP_LIMIT: u32 = 5;

// Why an event is refused: `enum nd_refusal`.
pub const REFUSAL_WRONG_ROLE: u32 = 1;

pub const REFUSAL_DISABLED: u32 = 2;

pub const REFUSAL_NOT_OURS: u32 = 3;

pub const REFUSAL_TOO_LONG: u32 = 4;

pub const REFUSAL_FULL: u32 = 5;

pub const REFUSAL_TENTATIVE: u32 = 8;

// The tables that have a limit: `enum nd_limit`.
pub const LIMIT_NEIGHBOURS: u32 = 1;

pub const LIMIT_ROUTERS: u32 = 2;

pub const LIMIT_PREFIXES: u32 = 3;

pub const LIMIT_ADDRESSES: u32 = 4;

pub const LIMIT_SERVERS: u32 = 5;

pub const LIMIT_NAMES: u32 = 6;

pub const LIMIT_OFFERS: u32 = 7;

pub const LIMIT_STATIC_ROUTES: u32 = 8;

// The states of a neighbour: `enum nd_reachability`.
pub const REACHABILITY_INCOMPLETE: u32 = 1;

pub const REACHABILITY_REACHABLE: u32 = 2;

pub const REACHABILITY_STALE: u32 = 3;

pub const REACHABILITY_DELAY: u32 = 4;

pub const REACHABILITY_PROBE: u32 = 5;

// The states of an address of the node: `enum nd_state`.
pub const STATE_TENTATIVE: u32 = 1;

pub const STATE_PREFERRED: u32 = 2;

pub const STATE_DEPRECATED: u32 = 3;

pub const STATE_DUPLICATE: u32 = 4;

// Where a packet is sent: `enum nd_hop`.
pub const HOP_DIRECT: u32 = 1;

pub const HOP_VIA: u32 = 2;

// The tables that can be cleared: `enum nd_clearable`.
pub const CLEARABLE_NEIGHBOURS: u32 = 1;

pub const CLEARABLE_ROUTERS: u32 = 2;

pub const CLEARABLE_PREFIXES: u32 = 3;

pub const CLEARABLE_REDIRECTS: u32 = 4;

pub const CLEARABLE_DNS: u32 = 5;
