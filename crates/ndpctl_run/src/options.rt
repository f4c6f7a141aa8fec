//! The options of `ndpctl run`.

use nd_addr::{Mac, Role};
use nd_node::{Limits, Policies};
use nd_slaac::Transmits;

/// The node that answers the lines of a script.
#[derive(Drop)]
pub struct RunOptions<R> {
    pub role: Role,
    /// The node's Ethernet address.
    pub mac: Mac,
    /// The number of solicitations that the node sends for each of its addresses.
    pub transmits: Transmits,
    /// The limits of the node's tables.
    pub limits: Limits,
    /// The node's policies.
    pub policies: Policies,
    /// The generator of the node's random words.
    pub generator: R,
}
