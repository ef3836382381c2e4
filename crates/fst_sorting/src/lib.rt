//! Sorts, effects and ghost parts of a program, and the law of the front.
#![tactic(auto)]

mod arguments;
mod building;
mod callees;
mod checking;
mod clauses;
mod effects;
mod functions;
mod giving;
mod heads;
mod known;
mod laws;
mod listing;
mod measures;
mod parts;
mod paths;
mod programs;
mod putting;
mod written;

pub use laws::front_law;
pub use programs::sort_program;
