//! How formulas are read under marks: their shapes, with the numbers of their atoms.
#![tactic(auto)]

mod arguments;
mod building;
mod making;
mod meeting;
mod pairs;
mod reading;
mod relations;
mod shapes;
mod sorting;
mod turning;

pub use building::Made;
pub use pairs::{components, sorts_of};
pub use reading::shape_of;
pub use shapes::{Shape, Shaped};
pub use sorting::boxed_sort;
