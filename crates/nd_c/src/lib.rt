//! A node of Neighbor Discovery for programs in C and in other languages. The header is `include/nd.h`, which says what each function does.
//!
//! The caller keeps a `Slot`, which has a session or none. Each function takes the session out of the slot, calls it, and puts it back. None has a
//! condition: an argument that a call does not take has a status. The statuses are in `specs/Status.antt`, what an event does in `specs/Event.antt`,
//! and what a question returns in `specs/Question.antt` and `specs/Rows.antt`. The structures are those of `nd_c_types`.
#![tactic(auto)]

mod all_rows;
mod answer;
mod bytes;
mod call;
mod confirmation;
mod events;
mod hear;
mod message;
mod next_hop;
mod node;
mod poll;
mod pool_bytes;
mod questions;
mod refusal;
mod resolve;
mod router_events;
mod row_of;
mod rows;
mod status;
mod tables;
mod version;
