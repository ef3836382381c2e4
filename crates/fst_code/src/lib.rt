//! Code: programs that are erased, and whether they are sound.
#![tactic(auto)]

mod code;
mod definition;
mod term;
mod text;

pub use code::{Code, CodeFun};
