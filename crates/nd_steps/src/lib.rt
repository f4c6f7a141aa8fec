//! The steps that make up a node's events: what a step does to one of the conceptual data structures of RFC 4861, section 5.1, and what the node
//! reports of it. nd_node says which steps an event takes, in which order, and what is refused; a table's crate says what the table is.
//!
//! - The conceptual data structures: `neighbour_cache`, with what a message says of a neighbour in `news`, and the neighbour that gives way to it in
//!   `giving_way`; `destination_cache`, with the tables that
//!   next-hop determination asks in `next_hop`; `prefix_list`; `default_router_list`.
//! - The rest of what a host keeps: `own_addresses`, `parameters`, `dns`, `solicit_routers`.
//! - What only a router has: `router_tables`, and a packet in transit in `transit`.
//! - Packets that are to be sent in `packets`, random delays and times in `draws`, and what is due in `turned` with its report in `due_rows`.
//!
//! Each moment, `now` or `at`, is in milliseconds; the caller chooses where they begin. What is reported is appended to `outs`, with its moment,
//! into room that was made before: only `ready_for`, `ready_for_two` and the functions that make a frame take memory.
#![tactic(auto)]

mod default_router_list;
mod destination_cache;
mod dns;
mod draws;
mod due_rows;
mod forbidden;
mod giving_way;
mod neighbour_cache;
mod news;
mod next_hop;
mod own_addresses;
mod packets;
mod parameters;
mod parts;
mod prefix_list;
mod router_tables;
mod solicit_routers;
mod transit;
mod turned;

pub use default_router_list::{end_router, hear_router, note_failure, tell_left, tell_routers};
pub use destination_cache::{forget_if_ended, keep_until_a_prefix_ends};
pub use dns::hear_dns;
pub use draws::{
    MAX_RTR_SOLICITATION_DELAY, answer_delay_drawn, drawn_from, interval_drawn, reachable_drawn,
};
pub use due_rows::{MOST_TOLD, tell, tell_advertisement, tell_lost};
pub use forbidden::is_forbidden;
pub use giving_way::{hear_giver, most_told_of_way, note_way};
pub use neighbour_cache::{
    has_place, hear_of_neighbour, note_use, note_wish, ready_for, ready_for_two, ready_for_wish,
    tell_packets, tell_use, tell_wish, told_for,
};
pub use news::{answer_address, news_of};
pub use next_hop::{Tables, is_via};
pub use own_addresses::{
    hear_conflict, hear_holder, hear_prefix_options, is_awake, is_to_nodes, is_to_routers,
    link_local, takes_target,
};
pub use packets::{
    Datagram, OutgoingPacket, WholePacket, frame_to, is_too_long, packet_in, read_whole,
};
pub use parameters::{hear_parameters, redraw_reachable_time, times_in_force};
pub use parts::{news_in_place, tell_ignored};
pub use prefix_list::hear_prefixes;
pub use router_tables::RouterTables;
pub use solicit_routers::RouterSolicitations;
pub use transit::{better_hop_frame, frame_as_it_came, frame_sent_on, known_mac};
pub use turned::Turned;
