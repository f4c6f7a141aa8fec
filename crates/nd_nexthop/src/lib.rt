//! Next-hop determination of a host (RFC 4861, sections 5.2 and 6.3.6), the redirects that it keeps (section 8.3), and the next hops that it
//! remembers (section 5.1, the Destination Cache).
#![tactic(auto)]

mod choice;
mod default_router;
mod end_of_redirects;
mod kept_redirects;
pub mod laws;
mod memo;
mod next_hop;
mod redirect;
mod target;
mod view;

pub use choice::{Choice, MAX_REDIRECTS};
pub use default_router::Candidate;
pub use kept_redirects::{KeptRedirects, Redirect};
pub use memo::MAX_REMEMBERED;
pub use next_hop::Hop;
pub use view::View;
