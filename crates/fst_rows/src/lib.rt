//! Rows of whole numbers: exact sums, tightened.
#![tactic(auto)]

mod divide;
mod exact;
mod fault;
mod laws;
mod number;
mod ordered;
mod row;
mod sums;
mod turn;

pub use divide::gcd;
pub use exact::{plus, scaled, tighten};
pub use fault::RowFault;
pub use laws::sums_keep_solutions;
pub use ordered::are_ordered;
pub use row::{Coef, Row};
pub use sums::combine;
