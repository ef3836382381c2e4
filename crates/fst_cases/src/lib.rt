//! Refutations of branches: what they are, and what the steps of a search make of them.
#![tactic(auto)]

mod always;
mod arena;
mod clashes;
mod closings;
mod cores;
mod known;
mod laws;
mod making;
mod merging;
mod roles;
mod search;
mod sides;
mod trail;
mod values;
mod verdict;
mod writing;

pub use laws::{clash_law, nothing_law};
