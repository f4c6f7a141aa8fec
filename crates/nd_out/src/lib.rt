//! What a node reports: what happened at it as values, their texts, and the rows of its tables.
#![tactic(auto)]

mod addresses;
mod advertised;
mod dns;
mod line;
mod lines;
mod lost;
mod neighbours;
mod out;
mod parameters;
mod path;
mod prefixes;
mod reasons;
mod redirects;
mod reports;
mod routers;
mod row;
mod static_routes;

pub use addresses::address_rows;
pub use advertised::advertise_rows;
pub use dns::dns_rows;
pub use lines::{write_node_out, write_outs};
pub use neighbours::neighbour_rows;
pub use out::{Limit, Loss, Out, Refusal, Way};
pub use parameters::parameter_row;
pub use prefixes::prefix_rows;
pub use redirects::redirect_rows;
pub use reports::{Report, Reports};
pub use routers::router_rows;
pub use static_routes::route_rows;
