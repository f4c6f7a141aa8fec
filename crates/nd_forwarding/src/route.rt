//! A static route without its prefix.

use nd_addr::Addr;

/// The way of the packets of a static route.
#[derive(Clone, Copy, Debug, PartialEq, Eq)]
pub enum Route {
    /// To their destination, which is on the link.
    Direct,
    /// To the router of this address, which is on the link.
    Via(Addr),
}
