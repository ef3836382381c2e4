//! Formulas that are joined, and the one that says that measures decrease.
#![tactic(auto)]

mod formulas;
mod measures;

pub use formulas::joined;
pub use measures::decrease;
