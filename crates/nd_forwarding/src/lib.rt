//! Forwarding by a router: its static routes, its next hops, and the moments of its Redirects (RFC 4861, sections 5.2 and 8.2).
#![tactic(auto)]

mod forward;
mod kept_routes;
pub mod laws;
mod next_hop;
mod redirect;
mod route;
mod routes;

pub use forward::{Fate, may_be_forwarded};
pub use kept_routes::{KeptRoute, KeptRoutes};
pub use route::Route;
pub use routes::{Full, MAX_ROUTES, Routes};
