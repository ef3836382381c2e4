//! The facts of functions: what applications unfold to, and their postconditions.
#![tactic(auto)]

mod applying;
mod branch_turns;
mod building;
mod call_turns;
mod cases;
mod clauses;
mod clearing;
mod copying;
mod definition_turns;
mod header_turns;
mod making;
mod posting;
mod putting;
mod raising;
mod rounds;
mod turns;
mod unfolding;
mod walking;
mod ways;

pub use rounds::{function_facts, postconditions};
