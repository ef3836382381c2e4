//! Erasure keeps the outcomes of good functions, and leaves well-sorted, sound code.
#![tactic(auto)]

mod laws;

pub use laws::{erased_sorted, erased_sound, erasure_keeps};
