//! Where every goal of a program is valid, every function of it is good.
#![tactic(auto)]

mod laws;

pub use laws::{
    application_law, function_facts_law, good_law, group_law, meaning_sort_law, post_law, step_law,
    unfold_law,
};
