//! Sorts of terms and of definition texts, and the effects and lifts that they make.
#![tactic(auto)]

mod building;
mod callee;
mod check_texts;
mod checking;
mod core_texts;
mod definitions;
mod effects;
mod faults;
mod given_texts;
mod giving;
mod headers;
mod open_matches;
mod patterns;
mod primitives;
mod runs;
mod scope;
mod sorts;
mod wanted;
mod written;

pub use building::{core_forms, core_term, sort_or_unit};
pub use callee::{Callee, Place, callee_of};
pub use checking::{Found, check_giving, check_term, inner_of, joined, params_of, value_of};
pub use definitions::{Definitions, define, lift_places};
pub use faults::{clash, need};
pub use giving::given;
pub use patterns::{bind, core_con, fits, unbind};
pub use scope::{Context, Entry};
pub use sorts::{Known as KnownSort, as_given, copied, copy_sort, known, or_else};
pub use wanted::{Wants, want_of};
pub use written::{boxed_sort, noted, sort_of};
