//! The structures that a program in C sees through `include/nd.h`, and the conversions between them and the library's own types.
//!
//! Each structure has the header's fields, in the header's order. Reserved fields are written as 0, and a caller's structure is refused if one of
//! them is not 0. Each file has one subject, and its definitions are in `specs/` under the same name: a function of `specs/` says what each
//! conversion returns.
#![tactic(auto)]

mod address;
mod advertising;
mod bytes;
mod changes;
mod clearable;
mod counts;
mod dns;
pub mod header;
pub mod laws;
mod limits;
mod message;
mod name_text;
mod neighbour;
mod next_hop;
mod numbers;
mod offer;
mod options;
mod own_address;
mod parameters;
mod path;
mod prefix;
mod record;
mod redirect;
mod refusal;
mod role;
mod route;
mod router;

pub use address::AddressRow;
pub use advertising::Advertising;
pub use clearable::clearable_in;
pub use counts::CountsRow;
pub use dns::{NameRow, ServerRow};
pub use header::MOMENT_LIMIT;
pub use limits::Limits;
pub use message::Message;
pub use neighbour::NeighbourRow;
pub use next_hop::NextHopRow;
pub use offer::OfferRow;
pub use options::{Draws, Opening, Options};
pub use own_address::OwnAddress;
pub use parameters::ParametersRow;
pub use path::PathRow;
pub use prefix::PrefixRow;
pub use record::{Record, bytes_of};
pub use redirect::RedirectRow;
pub use refusal::{limit_in, refusal_in, refused};
pub use role::role_of;
pub use route::RouteRow;
pub use router::RouterRow;
