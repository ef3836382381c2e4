//! Code made by hand, for tests and the bench.
#![tactic(auto)]

mod builders;
mod whole;

pub use builders::{
    arm, binary, bind, call, call_one, call_two, choose, dm_let_pair, dm_match_two, dm_ret, fun,
    ghost_let, let_in, lifted, match_two, number, reflect, reify, ret, returned, run_f, run_g,
    source_fun, unary, unit, var,
};
pub use whole::{
    Function, Functions, add, code, effect, state, step, tuple, with, with_effect, without_effects,
};
