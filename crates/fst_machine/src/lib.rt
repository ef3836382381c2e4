//! The machine that runs code.
#![tactic(auto)]

mod eval;
mod machine;
mod memory;
mod patterns;
mod state;
mod stop;
mod texts;

pub use machine::{Answer, Machine, is_ready};
