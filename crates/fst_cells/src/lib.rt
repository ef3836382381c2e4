//! Values in cells that share their parts, and primitives on them.
#![tactic(auto)]

mod cell;
mod compare;
mod laws;
mod make;
mod numbers;
mod operands;
mod selectors;
mod store;
mod values;

pub use cell::{Cell, Node};
pub use laws::one_tree;
pub use operands::Operands;
pub use store::Store;
