//! Sorts of terms and of texts, from those of the variables in scope, and sorts put in for sort variables.
#![tactic(auto)]

mod definition_sorts;
mod headers;
mod sort_putting;
mod sorting;
mod text_sorts;

pub use definition_sorts::definition_at;
pub use headers::{bind_text, effect_at, fun_at, lift_text, return_text};
pub use sort_putting::{put_sorts, term_at};
pub use sorting::{boxed_sort, copy_sorts, sort_of, sorts_of, with_parts, with_sort};
pub use text_sorts::{result_at, result_sort, text_sort};
