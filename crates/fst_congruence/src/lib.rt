//! Congruence closure over numbered terms, with explanations by certificate lines.
#![tactic(auto)]

mod begin;
mod checks;
mod classes;
mod closing;
mod closure;
mod equation;
mod explain;
mod extract;
mod firsts;
mod joining;
mod laws;
mod log;
mod makers;
mod members;
mod node;
mod numbered;
mod places;
mod sweeps;
mod why;

pub use checks::{are_equations, is_table};
pub use closing::{close, close_table, table};
pub use closure::Closure;
pub use equation::Equation;
pub use laws::joined_law;
pub use makers::{Different, first_different};
pub use node::Node;
pub use numbered::{number_of, places_of};
pub use places::Places;
