//! One host or router on one link: Neighbor Discovery (RFC 4861), address autoconfiguration (RFC 4862), and the DNS options of Router
//! Advertisements (RFC 8106).
//!
//! A `Node` keeps the conceptual data structures of RFC 4861, section 5.1, for one interface. It has no clock, no socket and no source of
//! random numbers: the caller passes frames, packets, commands, moments and random words, and the node returns what it sends and reports.
//! `crates/nd_example` is a host in one page.
//!
//! # What the caller owes
//!
//! - **Moments** in milliseconds below 2^62, counted from any beginning. An event at an earlier moment than the last one is reported as past
//!   and changes nothing.
//! - **Random words**: a generator that the node owns from then on. It draws only the delays and times that the RFCs ask for at random (RFC
//!   4861, sections 6.2.4, 6.2.6 and 6.3.2; RFC 4862, section 5.4.2).
//! - **Frames** as they are received, from the Ethernet destination on. The node looks at that destination only where the policy `unicast`
//!   asks whether to send a packet on: a caller whose interface receives more than its own frames and multicast filters them. Nor does the node know
//!   its own frames if they are looped back: it takes them for those of another node, unless the policy `self` drops them by their source.
//! - **Time**: something may be due without an event. `next_due` returns when; the event `Passes` at that moment does it.
//!
//! # What each call does
//!
//! - `Node::new` starts a node: its link-local address is tentative, and duplicate address detection is due (RFC 4862, sections 5.3 and 5.4).
//!   `with_policies` gives it policies for a link that isn't trusted.
//! - `event` does all that is due up to a moment, then what the event asks for. It appends what the node sends and reports to `Reports`, each
//!   with its moment, and returns how the node took the event (`Answer`). `receive` does so for a frame and `send` for a packet that the caller
//!   keeps, `run` for a list of events. A refused event adds its reason alone (`Out::Refused`).
//! - `settle` and `turn` do what is due without an event. `add` adds an event where nothing is due, for callers whose nodes take turns.
//! - `next_due` returns the moment at which something is due next, `settled` whether nothing is due up to a moment, and `last_moment` the moment
//!   up to which time has passed.
//! - `neighbours`, `default_routers`, `prefixes`, `addresses`, `servers`, `search_names`, `redirects`, `parameters`, `advertising`, `offers` and
//!   `routes` return what the node knows, row by row. `neighbour`, `next_hop_to`, `path` and `confirmed_by` look one thing up; `counts` and `waiting_at` return
//!   numbers of entries and of waiting packets. `rows` returns the rows of a table as text, and a `Request` has them
//!   reported.
//!
//! # What may fail
//! Only memory. `Node::new` returns the generator then, with no word drawn. After an error of `event` a part of what is due may have been done and
//! reported, and the event has changed nothing: the same call continues from there. No message is applied in part when memory runs out. Each table has
//! its room from the start, but for the redirects that are kept and the next hops that are remembered, which take a block for each entry. A full
//! table refuses (`Out::Refused`), passes a part of a message over with the policy `parts` (`Out::Ignored`), or evicts an entry as RFC 4861, section 5.3,
//! suggests.
//!
//! Memory is taken for frames that are sent, packets that wait for a neighbour's link-layer address, new search names, a redirect or a next hop
//! that is new, the list of outputs and text. If the list has room, none is taken for a frame that is dropped, a Router Advertisement that adds no
//! search name, a refusal, an address that is given by hand or withdrawn, a path that needs no new neighbour, `Passes` and `Confirms` (the clauses `quiet`, `late` and `refused` of `event`
//! and `receive`), nor for any question.
//!
//! # What is proved
//!
//! `Stands` of `specs/NodeKept.antt` ties a node to a chronicle of all that happened. Each call leads from every chronicle for which the node stands
//! to one that the definitions of nd_chronicle give, and reports exactly what these say. The definitions look back over what happened, in the
//! RFCs' terms, and know no tables.
#![tactic(auto)]

mod advertising;
mod answer;
mod by_hand;
mod clearing;
mod clock;
mod counts;
mod due;
mod event;
mod first_hop;
mod for_us;
mod forwarding;
mod frame;
mod fullness;
mod lease;
mod limits;
mod message;
mod neighbor_advertisement;
mod neighbor_solicitation;
mod node;
mod outgoing_packet;
mod packet;
mod parts;
mod path;
mod policies;
mod reachability_confirmation;
mod redirect;
mod refusal;
mod removal;
mod request;
mod resolve;
mod room;
mod router_advertisement;
mod router_solicitation;
mod shown;
mod solicited;
mod static_route;
mod tables;
mod time;
mod version;

pub use answer::Answer;
pub use clearing::Clearable;
pub use counts::Counts;
pub use event::Event;
pub use frame::Reception;
pub use limits::{Limits, USUAL_NEIGHBOURS, USUAL_ROUTERS};
pub use nd_steps::{Datagram, OutgoingPacket, Turned, WholePacket, read_whole};
pub use node::Node;
pub use path::{Path, TimedPath};
pub use policies::Policies;
pub use request::Request;
pub use resolve::Resolution;
pub use shown::Table;
pub use time::Turn;
pub use version::{VERSION, VERSION_NUMBER};
