//! Refutation of rows: a solution or multipliers from a search that is only checked, and elimination where it finds neither.
#![tactic(auto)]

mod answer;
mod derivation;
mod elimination;
mod follow;
mod laws;
mod narrow;
mod pairs;
mod refutation;
mod search;
mod solution;
mod split;
mod sweep;
mod tableau;
mod wide;

pub use answer::{LinearAnswer, Step};
pub use laws::{refuted_rows_have_no_solution, steps_keep_solutions};
pub use refutation::refute;
