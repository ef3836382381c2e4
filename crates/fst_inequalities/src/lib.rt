//! Linear forms of int terms, and rows of the inequalities between them.
#![tactic(auto)]

mod forms;
mod reading;
mod rows;

pub use reading::linear;
pub use rows::row_of;
