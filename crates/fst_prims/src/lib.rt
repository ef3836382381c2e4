//! The table of primitives, and what each of its rows answers.
#![tactic(auto)]

mod apply;
mod arguments;
mod copies;
mod data;
mod fault;
mod numbers;
mod selectors;
mod table;

pub use fault::PrimFault;
pub use table::{PRIMS, Prims, Row, Shape, table_of_prims};
