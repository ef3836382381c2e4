//! Lifts between effects: the rules on them, and the lattice that they make.
#![tactic(auto)]

mod building;
mod paths;
mod rules;
mod steps;

pub use building::lattice;
pub use paths::Lattice;
