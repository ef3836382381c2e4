//! Where the flat form of each goal of a program has a proof, every function of it is good.
#![tactic(auto)]

mod laws;

pub use laws::{branch_law, facts_law, flat_law, proof_law, proved_goals_law, true_flats_law};
