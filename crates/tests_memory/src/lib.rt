//! Tests in which memory runs out. A table is given a heap of a fixed size, from none at all up to what it needs, so that each
//! of its requests is the one that is refused in some run. What the refused call leaves is compared with what was before it.
//! What an event asks for where there is memory is counted. There is nothing here but tests.
#![tactic(auto)]

#[cfg(test)]
mod addresses;
#[cfg(test)]
mod dns;
#[cfg(test)]
mod links;
#[cfg(test)]
mod memo;
#[cfg(test)]
mod neighbours;
#[cfg(test)]
mod next_hops;
#[cfg(test)]
mod node;
#[cfg(test)]
mod parts;
#[cfg(test)]
mod redirects;
#[cfg(test)]
mod refusing;
#[cfg(test)]
mod requests;
#[cfg(test)]
mod routers;
