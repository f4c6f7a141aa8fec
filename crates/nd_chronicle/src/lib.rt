//! What a host or a router does, by what happened to it: the chronicle of a node (RFC 4861, RFC 4862, RFC 8106). Definitions and their laws,
//! and no code that runs.
#![tactic(auto)]

pub mod laws;
