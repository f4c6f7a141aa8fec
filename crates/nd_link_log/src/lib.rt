//! Nodes on one link: what happens to them all, and what is reported of it. These are definitions and their laws, by which `nd_link` runs.
#![tactic(auto)]

pub mod laws;
