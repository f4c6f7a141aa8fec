//! The Ethernet destination of a frame that waits.

use nd_addr::Mac;

/// The Ethernet destination of a frame that is still open: a frame that waits is addressed when it is sent.
pub const OPEN_MAC: Mac = Mac([0; 6]);
