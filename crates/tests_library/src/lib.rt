//! Tests of the library over its public calls alone: digits, texts, addresses, search names, messages, hearing, packets that wait; the tables, at their
//! limits; a node with its longest messages, its next hops and the ranges of its settings; and a session, which runs in and out of a slot. They are
//! here, so that no crate is proved a second time for its tests. There is nothing here but tests.
#![tactic(auto)]

#[cfg(test)]
mod addresses;
#[cfg(test)]
mod advertisement;
#[cfg(test)]
mod advertiser;
#[cfg(test)]
mod digits;
#[cfg(test)]
mod dns;
#[cfg(test)]
mod frames;
#[cfg(test)]
mod hearing;
#[cfg(test)]
mod messages;
#[cfg(test)]
mod neighbours;
#[cfg(test)]
mod next_hop;
#[cfg(test)]
mod node;
#[cfg(test)]
mod own_addresses;
#[cfg(test)]
mod routers;
#[cfg(test)]
mod search_names;
#[cfg(test)]
mod sessions;
#[cfg(test)]
mod texts;
#[cfg(test)]
mod waiting;
#[cfg(test)]
mod written_messages;
