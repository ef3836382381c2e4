//! Printed texts. Each function appends to a list; on want of memory a front of its text is there.

mod branch;
mod goal;
mod number;
mod refusals;
mod report;

pub use refusals::{bad_argument, plain_refusal, refusal};
pub use report::{help, no, value, version, yes};
