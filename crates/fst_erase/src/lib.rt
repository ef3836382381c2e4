//! Erasure: the code of a program.
#![tactic(auto)]

mod functions;
mod scope;
mod terms;
mod texts;

pub use functions::erase;
