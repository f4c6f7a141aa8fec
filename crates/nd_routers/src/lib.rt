//! The default routers of a host and the prefixes of its link (RFC 4861, section 6.3.4). The crate re-exports the parameters of the link, and the
//! DNS servers and search names (RFC 8106).
#![tactic(auto)]

mod due;
pub mod laws;
mod on_link;
mod on_link_prefixes;
mod preferred;
mod prefixes;
mod router;
mod router_advertisement;
mod router_failures;
mod routers;
mod shown;

pub use nd_dns::{Dns, NewNames, SearchName};
pub use nd_params::{Params, reachable_range};
pub use nd_table::{Limit, TableRefusal, WithLifetime, WithLifetimes};
pub use prefixes::{MAX_PREFIXES, Prefixes};
pub use router::Router;
pub use router_advertisement::Change;
pub use router_failures::Listed;
pub use routers::{MAX_ROUTERS, Routers};
pub use shown::{DefaultRouter, DefaultRouters};
