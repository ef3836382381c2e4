//! From the tree of a file to the program that it is, for the first programs: PURE functions over bool and unit, without calls.

mod bodies;
mod functions;
mod heads;
mod program;
mod scope;
mod stop;
mod terms;
mod typed;

pub use program::elaborate_program;
pub use stop::Stop;
