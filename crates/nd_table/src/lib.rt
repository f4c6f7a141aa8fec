//! What the tables of a node share: search by address, the dates at which something is due, the ends of lifetimes, and the announcements whose
//! lifetime hasn't ended: one definition for routers, prefixes, DNS servers and search names (RFC 4861, section 6.3.4; RFC 8106, section 6). Each
//! table keeps its entries in the order of their addresses, or in the order in which they entered.
#![tactic(auto)]

mod addr;
mod addressed;
mod announcements;
mod announces;
mod binary_search;
mod block;
mod blocks;
mod date;
mod dated;
mod ends;
mod lasting;
mod lasting_entries;
mod moments;
mod names_key;
mod order;
mod prefix;
mod probes;
mod ranked;
mod refusal;
mod schedule;
mod standing;
mod table;
mod walk;
mod with_lifetime;

pub use addressed::Addressed;
pub use announcements::{announce_all, fits_all, only_refreshes};
pub use announces::Announces;
pub use binary_search::search;
pub use date::Date;
pub use dated::Dated;
pub use ends::{INFINITY, end_time, is_before, time_left};
pub use lasting::Lasting;
pub use lasting_entries::{announce, count, drop_ended, enters, has, has_room, remove, stands};
pub use moments::{is_at, lesser};
pub use names_key::NamesKey;
pub use order::compare;
pub use probes::{Counter, Probes};
pub use ranked::Ranked;
pub use refusal::{Limit, TableRefusal};
pub use schedule::Schedule;
pub use standing::Standing;
pub use table::{find, holds, locate, locate_near, put};
pub use walk::Walk;
pub use with_lifetime::{WithLifetime, WithLifetimes};
